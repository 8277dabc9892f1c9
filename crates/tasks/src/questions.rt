// What a draft and a task tell of themselves.
ghost use Rattle.std.specs.Prelude.{◌≡◌, ◌≤◌, map, length};
ghost use Rattle.tasks.specs.Draft.{draft_of};
ghost use Rattle.tasks.specs.LongStaircase.{LongOf};
ghost use Rattle.tasks.specs.Staircase.{long_staircase, staircase_of};
ghost use Rattle.tasks.specs.Task.{share, task_of};

use crate::draft::Draft;
use crate::length::longest;
use crate::staircase::Staircase;
use crate::task::Task;

impl Draft {
    // The tasks, the one with the highest priority first.
    pub fn tasks(&self) -> &[Task]
        ensures value { map task_of result.now ≡ draft_of self.now }
        ensures bound { length result.now ≤ 8 }
    {
        self.tasks.as_slice()
    }
}

impl Task {
    // The staircase with the largest step; among equal steps the one with the smaller burst.
    pub fn long_staircase(&self) -> Staircase
        ensures value { staircase_of result ≡ long_staircase (task_of self.now).staircases }
        ensures long { LongOf (task_of self.now).staircases (staircase_of result) }
    {
        let [first, rest @ ..] = self.staircases.as_slice() else {
            unreachable!();
        };
        longest(*first, rest)
    }

    // The share of the processor that the task takes in the long run, in 1024ths, rounded up.
    pub fn share(&self) -> u64
        ensures value { result ≡ share (task_of self.now) }
        ensures bound { result ≤ 65536 }
    {
        let staircase = self.long_staircase();
        (1024 * self.limit).div_ceil(staircase.step)
    }
}
