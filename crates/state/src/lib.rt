// The state of a processor: its clock, the lanes of its tasks, the background jobs handed out, the cost granted and the fresh
// allowance. It is all that an allowance rule may read.
#![tactic(auto)]

mod laws;
mod making;
mod questions;
mod refusal;
mod state;

pub use laws::state_is_well_formed_stands;
pub use refusal::StateRefusal;
pub use state::State;
