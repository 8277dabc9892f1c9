// Staircase bounds on arrivals, the tasks that have them, and the draft in which a task set is put together.
#![tactic(auto)]

mod draft;
mod entering;
mod length;
mod making;
mod questions;
mod refusal;
mod staircase;
mod task;
#[cfg(test)]
mod tests;
mod totals;

pub use draft::Draft;
pub use length::{HasStaircase, longest};
pub use refusal::{ByNumber, EntryRefusal, Numbered, Quantity};
pub use staircase::Staircase;
pub use task::Task;
