// What every state has.
ghost use Rattle.fit.specs.WellFormed.{WellFormed};
ghost use Rattle.state.specs.State.{state_of};

use crate::state::State;

// A state is well formed, whoever made it: the laws of a rule speak of every state that there is.
pub fn state_is_well_formed_stands(state: &State)
    ensures { WellFormed (state_of state.now) }
{}
