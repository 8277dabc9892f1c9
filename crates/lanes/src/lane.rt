ghost use Rattle.std.specs.Prelude.{◌≡◌, true, map};
ghost use Rattle.arrivals.specs.Bucket.{counters_of, matched};
ghost use Rattle.bounded.specs.List.{items};
ghost use Rattle.lanes.specs.Job.{within_limit};
ghost use Rattle.tasks.specs.Staircase.{staircase_of};

use crate::job::Job;
use arrivals::Counters;
use bounded::Bounded;
use tasks::Task;

// A task with a counter for each of its staircases and its pending jobs, oldest first. Task, counters and the fact that they belong
// together stand in a monitor too: a struct of them would be one name more in every path to a task. No job has more ticks left than the
// task's execution limit, and none has nothing left.
#[derive(Clone, Copy)]
pub struct Lane {
    pub(crate) task: Task,
    pub(crate) counters: Counters,
    pub(crate) pending: Bounded<Job, 8>,
    ghost own: { matched (map staircase_of (items task.staircases)) (counters_of counters) ≡ true },
    ghost worked: { within_limit task.limit (items pending) ≡ true },
}
