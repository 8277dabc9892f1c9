ghost use Rattle.std.specs.Prelude.{◌≡◌};
ghost use Rattle.fit.specs.Exact.{ExactlyFits, exact};
ghost use Rattle.state.specs.State.{state_of};
ghost use Rattle.fit.proofs.RuleLaws.{exact_laws};

use crate::allowance::Allowance;
use state::State;

// The greatest amount with which every task fits: it uses all that can be known, and takes the longest to find.
#[derive(Clone, Copy)]
pub struct Exact;

impl Allowance for Exact {
    ghost meaning = { λ rule state. exact state };

    ghost lawful = { λ s. exact_laws };

    fn allowance(&self, state: &State) -> u64
        ensures value { result ≡ exact (state_of state.now) }
        ensures greatest { ExactlyFits (state_of state.now).clock (state_of state.now).lanes result }
    {
        state.snapshot().exact_allowance()
    }
}
