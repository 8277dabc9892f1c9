// A list of at most N elements that lies in place: no call of it allocates, so it may be used on an audio thread.
#![tactic(auto)]

mod change;
mod list;
mod operations;

pub use change::Change;
pub use list::Bounded;
