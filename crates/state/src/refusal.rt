ghost use Rattle.state.specs.StateRefusal.{state_refusal};

use std::fmt;
use tasks::Numbered;

// Why there is no state of some tasks at a reading.
#[derive(Clone, Copy, PartialEq, Eq, Debug)]
pub enum StateRefusal {
    // the reading is above 10^15
    ReadingTooLate,
    // the shares sum to more than 960
    SharesTooLarge,
}

impl Numbered for StateRefusal {
    ghost shown = { state_refusal };

    fn number(&self) -> u64 {
        match self {
            StateRefusal::ReadingTooLate => 5,
            StateRefusal::SharesTooLarge => 6,
        }
    }
}

impl fmt::Display for StateRefusal {
    fn fmt<W: fmt::Write>(&self, f: &mut fmt::Formatter<W>) -> fmt::Result {
        match self {
            StateRefusal::ReadingTooLate => write!(f, "the reading is above 10^15"),
            StateRefusal::SharesTooLarge => write!(f, "the shares sum to more than 960"),
        }
    }
}
