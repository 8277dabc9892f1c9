ghost use Rattle.std.specs.Prelude.{◌≤◌, map};
ghost use Rattle.bounded.specs.List.{items};
ghost use Rattle.lanes.specs.Lane.{lane_of, tasks_of};
ghost use Rattle.tasks.specs.TaskSet.{shares};

use crate::lane::Lane;
use bounded::Bounded;

// The lanes of a task set, the one with the highest priority first. The tasks leave at least a sixteenth of the processor
// free in the long run: their shares sum to at most 960 of 1024.
#[derive(Clone, Copy)]
pub struct Lanes {
    pub(crate) lanes: Bounded<Lane, 8>,
    ghost light: { shares (tasks_of (map lane_of (items lanes))) ≤ 960 },
}
