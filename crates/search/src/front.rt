// What the tasks from the first one up to one of them take together, and how far a search for that one has to go.
ghost use Rattle.std.specs.Prelude.{◌≡◌, ◌+◌, ◌-◌, ◌*◌, ◌≤◌};
ghost use Rattle.lanes.specs.Lane.{lane_of};

use lanes::Lane;

// What the tasks up to one of them take together. The tasks of a set are at most eight, and leave a sixteenth of the processor free.
// Amounts are at most 8,192 below, so that nothing passes 64 bits: a type for them would be a name at every call.
#[derive(Clone, Copy)]
pub(crate) struct Front {
    // the shares, in 1024ths of the processor
    pub(crate) shares: u64,
    // the backlog, with a burst of jobs of each task more
    pub(crate) standing: u64,
    // where the lines above the loads begin, in 1024ths of a tick
    pub(crate) start: u64,
    ghost light: { shares ≤ 960 },
    ghost few: { standing ≤ 8192 },
    ghost low: { start ≤ 16777216 },
}

impl Front {
    ghost use Rattle.search.specs.Front.{Light, empty_front, front_of, suffices, with_lane};

    // Of no tasks.
    pub(crate) fn new() -> Front
        ensures { front_of result ≡ empty_front }
    {
        Front {
            shares: 0,
            standing: 0,
            start: 0,
        }
    }

    // One task more.
    pub(crate) fn add(&mut self, lane: &Lane)
        requires { Light (with_lane (front_of self.old) (lane_of lane.now)) }
        ensures { front_of self.new ≡ with_lane (front_of self.old) (lane_of lane.now) }
    {
        self.shares += lane.task().share();
        self.standing += lane.standing();
        self.start += lane.line_start();
    }

    // Whether from this length on each length is itself enough for the last of the tasks, with every amount up to this one:
    // what the tasks leave free of the processor until then is at least the amount and what stands.
    pub(crate) fn suffices(&self, length: u32, amount: u64) -> bool
        requires { amount ≤ 8192 }
        ensures { result ≡ suffices (front_of self.now) length amount }
    {
        1024 * (amount + self.standing) <= u64::from(length) * 1024u64.saturating_sub(self.shares)
    }

    // A length from which on each length is itself enough for the last of the tasks, with every amount up to this one.
    pub(crate) fn horizon(&self, amount: u64) -> u32
        requires { amount ≤ 8192 }
        ensures far { 1024 * (amount + self.now.standing) ≤ result * (1024 - self.now.shares) }
        ensures bound { result ≤ 262145 }
    {
        (1024 * (amount + self.standing) / (1024 - self.shares) + 1) as u32
    }
}
