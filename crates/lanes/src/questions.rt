// What a lane and a set of lanes tell of themselves.
ghost use Rattle.std.specs.Prelude.{◌≡◌, ◌+◌, ◌*◌, ◌<◌, ◌≤◌, map, length as count, if◌then◌else◌, nat_le};
ghost use Rattle.arrivals.specs.Bucket.{counters_of};
ghost use Rattle.lanes.specs.Demand.{demand, load};
ghost use Rattle.lanes.specs.Job.{backlog, due_by};
ghost use Rattle.lanes.specs.Lane.{lane_of};
ghost use Rattle.lanes.specs.Lanes.{lanes_of};
ghost use Rattle.lanes.specs.Line.{line_start};
ghost use Rattle.lanes.specs.Standing.{standing_of};
ghost use Rattle.tasks.specs.Task.{task_of};

use crate::job::Job;
use crate::lane::Lane;
use crate::lanes::Lanes;
use arrivals::Counters;
use tasks::Task;

impl Lanes {
    // The lanes, the one with the highest priority first.
    pub fn as_slice(&self) -> &[Lane]
        ensures value { map lane_of result.now ≡ lanes_of self.now }
        ensures bound { count result.now ≤ 8 }
    {
        self.lanes.as_slice()
    }
}

impl Job {
    // What remains of the job if it is due within `length` ticks of the clock reading `clock`, and otherwise 0.
    fn due_within(self, clock: u64, length: u32) -> u64
        ensures { result ≡ (if nat_le self.due (clock + length) then self.remaining else 0) }
    {
        if self.due.saturating_sub(clock) <= u64::from(length) {
            self.remaining
        } else {
            0
        }
    }
}

impl Lane {
    // The task itself.
    pub fn task(&self) -> &Task
        ensures { task_of result.now ≡ (lane_of self.now).task }
    {
        &self.task
    }

    // The counters of the task's staircases.
    pub fn counters(&self) -> &Counters
        ensures { counters_of result.now ≡ (lane_of self.now).buckets }
    {
        &self.counters
    }

    // The pending jobs, oldest first.
    pub fn pending(&self) -> &[Job]
        ensures value { result.now ≡ (lane_of self.now).pending }
        ensures bound { count result.now ≤ 8 }
    {
        self.pending.as_slice()
    }

    // What remains of all pending jobs.
    pub fn backlog(&self) -> u64
        ensures value { result ≡ backlog (lane_of self.now).pending }
        ensures bound { result ≤ 512 }
    {
        self.pending().iter().map(|job| job.remaining).sum()
    }

    // What remains of the pending jobs that are due within `length` ticks of the clock reading `clock`.
    fn due_within(&self, clock: u64, length: u32) -> u64
        ensures value { result ≡ due_by (clock + length) (lane_of self.now).pending }
        ensures bound { result ≤ 512 }
    {
        let jobs = self.pending().iter();
        jobs.map(|job| job.due_within(clock, length)).sum()
    }

    // The work of the task that is due within `length` ticks of the clock reading `clock`, with the jobs that can still arrive. Two
    // numbers and no struct: a search keeps the one and goes along the other. Inlined, since both searches ask it at every length.
    #[inline]
    pub fn demand(&self, clock: u64, length: u32) -> u64
        ensures value { result ≡ demand clock (lane_of self.now) length }
        ensures bound { result ≤ 1024 + 64 * length }
    {
        let instants = (u64::from(length) + 1).saturating_sub(self.task.deadline);
        let arrivals = self.counters.arrivals_within(instants as u32);
        self.due_within(clock, length) + self.task.limit * arrivals
    }

    // All that is pending, with the jobs that can arrive at the `length` instants that begin now.
    pub fn load(&self, length: u32) -> u64
        ensures value { result ≡ load (lane_of self.now) length }
        ensures bound { result ≤ 1024 + 64 * length }
    {
        self.backlog() + self.task.limit * self.counters.arrivals_within(length)
    }

    // The backlog with a burst of jobs more, by the long staircase.
    pub fn standing(&self) -> u64
        ensures value { result ≡ standing_of (lane_of self.now) }
        ensures bound { result ≤ 1024 }
    {
        self.backlog() + self.task.limit * self.task.long_staircase().burst
    }

    // Where the straight line above the load begins, in 1024ths of a tick; it rises by the task's share.
    pub fn line_start(&self) -> u64
        ensures value { result ≡ line_start (lane_of self.now) }
        ensures bound { result ≤ 2097152 }
    {
        let bucket = self.counters.long_bucket();
        let gathered = (self.task.share() * bucket.age()).min(1024 * self.task.limit);
        1024 * (self.backlog() + self.task.limit * bucket.tokens()) + gathered
    }
}
