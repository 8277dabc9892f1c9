ghost use Rattle.std.specs.Prelude.{◌≡◌, ◌≤◌, true, map};
ghost use Rattle.arrivals.specs.Bucket.{counters_of, matched};
ghost use Rattle.arrivals.specs.Clock.{last_reading};
ghost use Rattle.bounded.specs.List.{items};
ghost use Rattle.tasks.specs.Staircase.{staircase_of};

use crate::counters::Counters;
use tasks::Task;

// A task, a counter for each of its staircases, and a clock that reads an instant.
#[derive(Drop)]
pub struct Monitor {
    pub(crate) task: Task,
    pub(crate) counters: Counters,
    pub(crate) clock: u64,
    ghost own: { matched (map staircase_of (items task.staircases)) (counters_of counters) ≡ true },
    ghost readable: { clock ≤ last_reading },
}
