// How lanes begin.
ghost use Rattle.std.specs.Prelude.{◌≡◌, ◌≤◌, map, length};
ghost use Rattle.bounded.specs.List.{items};
ghost use Rattle.lanes.specs.Lane.{fresh_lane, lane_of};
ghost use Rattle.lanes.specs.Lanes.{fresh_unless_heavy, lanes_made};
ghost use Rattle.tasks.specs.Draft.{draft_of};
ghost use Rattle.tasks.specs.Task.{task_of};

use crate::job::Job;
use crate::lane::Lane;
use crate::lanes::Lanes;
use arrivals::Counters;
use bounded::Bounded;
use tasks::{Draft, Task};

impl Lane {
    // The lane of a task that has had no arrival.
    pub fn new(task: &Task) -> Lane
        ensures { lane_of result ≡ fresh_lane (task_of task.now) }
    {
        Lane {
            task: *task,
            counters: Counters::new(task),
            pending: Bounded::new(Job {
                due: 0,
                remaining: 1,
            }),
        }
    }
}

impl Lanes {
    // The lanes of a draft's tasks before any arrival, unless the shares sum to more than 960.
    pub fn new(draft: &Draft) -> Option<Lanes>
        ensures { lanes_made result ≡ fresh_unless_heavy (draft_of draft.now) }
    {
        if draft.shares() > 960 {
            return None;
        }
        Some(Lanes {
            lanes: fresh_lanes(draft),
        })
    }
}

// A lane for each of the tasks of a draft.
fn fresh_lanes(draft: &Draft) -> Bounded<Lane, 8>
    ensures { map lane_of (items result) ≡ map fresh_lane (draft_of draft.now) }
{
    let mut lanes = Bounded::new(Lane::new(&Task::smallest()));
    // a loop, since `collect` could not be given the value for the empty slots
    for task in draft.tasks() {
        let _ = lanes.push(Lane::new(task));
    }
    lanes
}
