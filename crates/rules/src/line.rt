ghost use Rattle.std.specs.Prelude.{◌≡◌};
ghost use Rattle.fit.specs.Line.{LinePasses, line};
ghost use Rattle.state.specs.State.{state_of};
ghost use Rattle.fit.proofs.RuleLaws.{line_laws};

use crate::allowance::Allowance;
use state::State;

// The greatest amount with which every task passes behind straight lines in place of the staircases of the tasks before it. A type
// of its own beside `Exact`: a user names a rule by its type, and the two say of different things that they are the greatest.
#[derive(Clone, Copy)]
pub struct Line;

impl Allowance for Line {
    ghost meaning = { λ rule state. line state };

    ghost lawful = { λ s. line_laws };

    fn allowance(&self, state: &State) -> u64
        ensures value { result ≡ line (state_of state.now) }
        ensures greatest { LinePasses (state_of state.now).clock (state_of state.now).lanes result }
    {
        state.snapshot().line_allowance()
    }
}
