ghost use Rattle.std.specs.Prelude.{◌≤◌};

use std::fmt;

// At most burst + floor(length / step) arrivals at the length + 1 instants of any window. The ranges hold of every value,
// whoever made it.
#[derive(Clone, Copy, PartialEq, Eq, Debug)]
pub struct Staircase {
    pub burst: u64,
    pub step: u64,
    ghost burst_above: { 1 ≤ burst },
    ghost burst_below: { burst ≤ 8 },
    ghost step_above: { 1 ≤ step },
    ghost step_below: { step ≤ 4096 },
}

impl fmt::Display for Staircase {
    fn fmt<W: fmt::Write>(&self, f: &mut fmt::Formatter<W>) -> fmt::Result {
        let Staircase { burst, step } = self;
        write!(f, "{burst}/{step}")
    }
}
