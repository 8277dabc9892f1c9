ghost use Rattle.std.specs.Prelude.{◌≡◌};
ghost use Rattle.gate.specs.OpenRefusal.{open_refusal};
ghost use Rattle.state.specs.StateRefusal.{state_refusal};

use state::StateRefusal;
use std::fmt;
use tasks::Numbered;

// Why a gate is not opened. The two refusals of a state stand among the others, so that a caller matches one enum.
#[derive(Clone, Copy, PartialEq, Eq, Debug)]
pub enum OpenRefusal {
    // the draft has no task
    NoTask,
    // the reading is above 10^15
    ReadingTooLate,
    // the shares sum to more than 960
    SharesTooLarge,
    // a task does not fit even without background work: the first such, counted from 1
    Misfit { task: u64 },
    // the rule allows no background work
    NothingAllowed,
}

// The refusals of a state are the gate's too, under the same numbers.
impl From<StateRefusal> for OpenRefusal {
    ghost from_gives = { λ refusal result. open_refusal result ≡ state_refusal refusal };

    fn from(refusal: StateRefusal) -> OpenRefusal {
        match refusal {
            StateRefusal::ReadingTooLate => OpenRefusal::ReadingTooLate,
            StateRefusal::SharesTooLarge => OpenRefusal::SharesTooLarge,
        }
    }
}

impl Numbered for OpenRefusal {
    ghost shown = { open_refusal };

    fn number(&self) -> u64 {
        match self {
            OpenRefusal::NoTask => 4,
            OpenRefusal::ReadingTooLate => StateRefusal::ReadingTooLate.number(),
            OpenRefusal::SharesTooLarge => StateRefusal::SharesTooLarge.number(),
            OpenRefusal::Misfit { .. } => 7,
            OpenRefusal::NothingAllowed => 8,
        }
    }
}

impl fmt::Display for OpenRefusal {
    fn fmt<W: fmt::Write>(&self, f: &mut fmt::Formatter<W>) -> fmt::Result {
        match self {
            OpenRefusal::NoTask => write!(f, "there is no task"),
            OpenRefusal::ReadingTooLate => StateRefusal::ReadingTooLate.fmt(f),
            OpenRefusal::SharesTooLarge => StateRefusal::SharesTooLarge.fmt(f),
            OpenRefusal::Misfit { task } => write!(
                f,
                "task {task} does not fit even without background work"
            ),
            OpenRefusal::NothingAllowed => write!(f, "the rule allows no background work"),
        }
    }
}
