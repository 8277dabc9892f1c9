// The counters of one task together.
ghost use Rattle.std.specs.Prelude.{◌≡◌, ◌+◌, ◌≤◌, map, length};
ghost use Rattle.arrivals.specs.Bucket.{arrivals_within, bucket_after, bucket_of, counters_of, first_empty, full, long_bucket};
ghost use Rattle.tasks.specs.Task.{task_of};

use crate::bucket::Bucket;
use crate::counter::Event;
use crate::counters::Counters;
use bounded::Bounded;
use tasks::Task;

impl Counters {
    // The counters of a task that has had no arrival: all full.
    pub fn new(task: &Task) -> Counters
        ensures { counters_of result ≡ map full (task_of task.now).staircases }
    {
        let staircases = task.staircases.as_slice();
        let mut buckets = Bounded::new(Bucket::new(staircases[0]));
        // a loop, since `collect` could not be given the value for the empty slots
        for staircase in staircases {
            let _ = buckets.push(Bucket::new(*staircase));
        }
        Counters { buckets }
    }

    // Each staircase with its counter, in the order of the task's staircases.
    pub fn buckets(&self) -> &[Bucket]
        ensures value { map bucket_of result.now ≡ counters_of self.now }
        ensures bound { length result.now ≤ 4 }
    {
        self.buckets.as_slice()
    }

    // The long staircase with its counter. The comparison stands here, and not in `longest` of tasks alone, so that a slip in it
    // can be planted here and is seen to break this contract.
    pub fn long_bucket(&self) -> Bucket
        ensures { bucket_of result ≡ long_bucket (counters_of self.now) }
    {
        let [first, rest @ ..] = self.buckets.as_slice() else {
            unreachable!();
        };
        rest.iter().fold(*first, |longest, bucket| {
            if bucket.staircase.is_longer_than(longest.staircase) {
                *bucket
            } else {
                longest
            }
        })
    }

    // The number, counted from 1, of the first staircase that has no token.
    pub fn first_empty(&self) -> Option<u64>
        ensures { result ≡ first_empty 1 (counters_of self.now) }
    {
        let mut buckets = self.buckets.as_slice().iter();
        let empty = buckets.position(|bucket| !bucket.has_token());
        empty.map(|i| i as u64 + 1)
    }

    // The event changes every counter.
    pub fn step(&mut self, event: Event)
        ensures { counters_of self.new ≡ map (bucket_after event) (counters_of self.old) }
    {
        self.buckets.change_each(event);
    }

    // The arrivals that are still possible at the `instants` instants that begin now.
    pub fn arrivals_within(&self, instants: u32) -> u64
        ensures value { result ≡ arrivals_within instants (counters_of self.now) }
        ensures bound { result ≤ 8 + instants }
    {
        let buckets = self.buckets.as_slice().iter();
        let bounds = buckets.map(|bucket| bucket.allows(instants));
        bounds.min().unwrap_or(0)
    }
}
