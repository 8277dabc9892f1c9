ghost use Rattle.std.specs.Prelude.{◌≡◌, true};
ghost use Rattle.arrivals.specs.Counter.{sound};
ghost use Rattle.tasks.specs.Staircase.{staircase_of};

use crate::counter::Counter;
use tasks::{HasStaircase, Staircase};

// A staircase with its counter, which keeps within it: a short counter has fewer tokens than the burst and is younger than
// the step.
#[derive(Clone, Copy)]
pub struct Bucket {
    pub staircase: Staircase,
    pub counter: Counter,
    ghost within: { sound (staircase_of staircase) counter ≡ true },
}

// So a user may ask `longest` of buckets too; this library asks it of staircases alone.
impl HasStaircase for Bucket {
    ghost staircase = { λ bucket. staircase_of bucket.staircase };

    fn staircase(&self) -> Staircase {
        self.staircase
    }
}
