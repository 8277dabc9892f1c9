// What the tasks before a task may ask of the processor, by length.
ghost use Rattle.std.specs.Prelude.{◌≡◌, ℕ, ◌+◌, ◌-◌, ◌*◌, ◌/◌, ◌<◌, ◌≤◌, length as count};

use lanes::Lane;

// The tasks of `before` may ask by all their staircases; the others by a straight line, in 1024ths of a tick. The exact rule
// takes every task by its staircases, the line rule every task by its line.
#[derive(Clone, Copy)]
pub(crate) struct Ahead<'a> {
    pub(crate) before: &'a [Lane],
    pub(crate) start: u64,
    pub(crate) share: u64,
    // the tasks of a set are few, and their lines no longer than those of eight tasks
    ghost few: { count before.now ≤ 8 },
    ghost low: { start ≤ 16777216 },
    ghost light: { share ≤ 960 },
}

impl Ahead<'_> {
    ghost use Rattle.search.specs.Ahead.{FirstEnough, ahead_at};

    // What they may ask by this length, in 1024ths of a tick. That lengths are at most 1,048,576 keeps the sum within 64 bits.
    #[inline(always)]
    fn at(&self, length: u32) -> u64
        requires { length ≤ 1048576 }
        ensures value { result ≡ ahead_at self.now length }
        ensures bound { result ≤ 2199023255552 }
    {
        let work: u64 = self.before.iter().map(|lane| lane.load(length)).sum();
        1024 * work + (self.start + self.share * u64::from(length))
    }

    // What the length leaves free, in whole ticks.
    pub(crate) fn free(&self, length: u32) -> u64
        requires { length ≤ 1048576 }
        ensures { result ≡ (1024 * length - ahead_at self.now length) / 1024 }
    {
        (1024 * u64::from(length)).saturating_sub(self.at(length)) / 1024
    }

    // The first length from `from` to `to` that is enough for this work and all that the tasks before may ask by then.
    pub(crate) fn first_enough(&self, from: u32, to: u32, work: u64) -> Option<u32>
        requires room { to ≤ 1048575 }
        requires small { work ≤ 4294967296 }
        ensures { FirstEnough work (ahead_at self.now) from to result }
    {
        (from..to + 1).find(|length| 1024 * work + self.at(*length) <= 1024 * u64::from(*length))
    }
}
