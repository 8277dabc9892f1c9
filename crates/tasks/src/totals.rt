// What the tasks of a draft take together.
ghost use Rattle.std.specs.Prelude.{◌≡◌, ◌≤◌};
ghost use Rattle.tasks.specs.Draft.{draft_of};
ghost use Rattle.tasks.specs.Task.{task_of};
ghost use Rattle.tasks.specs.TaskSet.{peak_of, peak_work, shares};

use crate::draft::Draft;
use crate::task::Task;

impl Draft {
    // The shares of the tasks together, in 1024ths of the processor.
    pub fn shares(&self) -> u64
        ensures value { result ≡ shares (draft_of self.now) }
        ensures bound { result ≤ 524288 }
    {
        self.tasks().iter().map(|task| task.share()).sum()
    }

    // A bound on the work that can stand at one instant: 1,024 ticks of background work and, for each task, eight pending jobs and
    // a burst of jobs more.
    pub fn peak_work(&self) -> u64
        ensures value { result ≡ peak_work (draft_of self.now) }
        ensures bound { result ≤ 9216 }
    {
        let work: u64 = self.tasks().iter().map(|task| task.peak_work()).sum();
        1024 + work
    }
}

impl Task {
    // A bound on the work of the task that can stand at one instant: eight pending jobs and a burst of jobs more.
    fn peak_work(&self) -> u64
        ensures value { result ≡ peak_of (task_of self.now) }
        ensures bound { result ≤ 1024 }
    {
        self.limit * (8 + self.long_staircase().burst)
    }
}
