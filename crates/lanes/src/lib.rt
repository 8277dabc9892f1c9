// A critical task with its counters and pending jobs: what it may ask of the processor.
#![tactic(auto)]

mod job;
mod lane;
mod lanes;
mod making;
mod questions;
mod released;

pub use job::Job;
pub use lane::Lane;
pub use lanes::Lanes;
pub use released::Released;
