ghost use Rattle.std.specs.Prelude.{◌≤◌, map, length};
ghost use Rattle.bounded.specs.List.{items};
ghost use Rattle.tasks.specs.Staircase.{pending_bound, staircase_of};

use crate::staircase::Staircase;
use bounded::Bounded;
use std::fmt;

// A critical task: each of its jobs runs for at most `limit` ticks and has to end within `deadline` ticks of its arrival.
// The facts below hold of every value, whoever made it; the last one is that at most eight jobs can be pending at once.
#[derive(Clone, Copy)]
pub struct Task {
    pub limit: u64,
    pub deadline: u64,
    pub staircases: Bounded<Staircase, 4>,
    ghost limit_above: { 1 ≤ limit },
    ghost limit_below: { limit ≤ 64 },
    ghost deadline_above: { 1 ≤ deadline },
    ghost deadline_below: { deadline ≤ 1024 },
    ghost bounded_arrivals: { 1 ≤ length (items staircases) },
    ghost few_pending: { pending_bound deadline (map staircase_of (items staircases)) ≤ 8 },
}

// The limit and the deadline, without the staircases.
impl fmt::Display for Task {
    fn fmt<W: fmt::Write>(&self, f: &mut fmt::Formatter<W>) -> fmt::Result {
        let limit = self.limit;
        let deadline = self.deadline;
        write!(f, "limit {limit}, deadline {deadline}")
    }
}
