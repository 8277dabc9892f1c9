// The searches over the lengths: the first task that does not fit with an amount, and the exact and the line allowance.
#![tactic(auto)]

mod ahead;
mod allowance;
mod bound;
mod front;
mod misfit;
mod snapshot;
mod turn;

pub use snapshot::Snapshot;
