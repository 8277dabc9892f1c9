// Allowance rules: how much background work may stand before the tasks. A rule is any maker of allowances that keeps the laws;
// three are here, and a user may bring another.
#![tactic(auto)]

mod allowance;
mod exact;
mod fixed;
mod line;

pub use allowance::Allowance;
pub use exact::Exact;
pub use fixed::Fixed;
pub use line::Line;
