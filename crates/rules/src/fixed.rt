ghost use Rattle.std.specs.Prelude.{◌≡◌};
ghost use Rattle.fit.specs.Fixed.{fixed};
ghost use Rattle.state.specs.State.{state_of};
ghost use Rattle.fit.proofs.RuleLaws.{fixed_laws};

use crate::allowance::Allowance;
use state::State;

// A budget: what the freshly opened state allows. Each hand-out spends of it, and it is whole again once the processor is idle.
#[derive(Clone, Copy)]
pub struct Fixed;

impl Allowance for Fixed {
    ghost meaning = { λ rule state. fixed state };

    ghost lawful = { λ s. fixed_laws };

    fn allowance(&self, state: &State) -> u64
        ensures value { result ≡ fixed (state_of state.now) }
    {
        let work = state.released_work();
        let budget = state.fresh_allowance();
        let spent = state.granted();
        work + budget.saturating_sub(spent)
    }
}
