// The gate between a queue of background jobs and the processor.
#![tactic(auto)]

mod closing;
mod gate;
mod offer;
mod opening;
mod questions;
mod refusal;
#[cfg(test)]
mod tests;

pub use closing::Closing;
pub use gate::Gate;
pub use offer::Offer;
pub use refusal::OpenRefusal;
