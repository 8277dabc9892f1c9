// What a monitor and a bucket tell of themselves.
ghost use Rattle.std.specs.Prelude.{◌≡◌, ◌≤◌};
ghost use Rattle.arrivals.specs.Bucket.{arrivals_within, bucket_of};
ghost use Rattle.arrivals.specs.Counter.{age, tokens};
ghost use Rattle.arrivals.specs.Monitor.{monitor_of};
ghost use Rattle.arrivals.specs.Continuations.{BoundsArrivals};

use crate::bucket::Bucket;
use crate::counter::Counter;
use crate::monitor::Monitor;

impl Monitor {
    // The instant that the clock reads.
    pub fn clock(&self) -> u64
        ensures { result ≡ (monitor_of self.now).clock }
    {
        self.clock
    }

    // The arrivals that are still possible at the `instants` instants that begin now: whatever follows, no more are taken.
    pub fn arrivals_within(&self, instants: u32) -> u64
        ensures bound { BoundsArrivals (monitor_of self.now) instants result }
        ensures value { result ≡ arrivals_within instants (monitor_of self.now).buckets }
    {
        self.counters.arrivals_within(instants)
    }
}

impl Bucket {
    // How many arrivals the staircase allows now.
    pub fn tokens(&self) -> u64
        ensures value { result ≡ tokens (bucket_of self.now).staircase self.now.counter }
        ensures bound { result ≤ 8 }
    {
        match self.counter {
            Counter::Full => self.staircase.burst,
            Counter::Short { tokens, .. } => tokens,
        }
    }

    // For how many ticks the counter has been gathering its next token.
    pub fn age(&self) -> u64
        ensures value { result ≡ age self.now.counter }
        ensures bound { result ≤ 4096 }
    {
        match self.counter {
            Counter::Full => 0,
            Counter::Short { age, .. } => age,
        }
    }
}
