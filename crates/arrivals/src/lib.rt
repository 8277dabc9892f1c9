// The counters that watch a task's arrivals, and a monitor that admits an arrival only where every staircase allows it.
#![tactic(auto)]

mod bucket;
mod clock;
mod counter;
mod counters;
mod counting;
mod monitor;
mod monitoring;
mod observing;
mod questions;
mod record;
mod refusal;
mod stepping;
#[cfg(test)]
mod tests;

pub use bucket::Bucket;
pub use clock::LAST_READING;
pub use counter::{Counter, Event};
pub use counters::Counters;
pub use monitor::Monitor;
pub use observing::observe;
pub use record::Record;
pub use refusal::MonitorRefusal;
