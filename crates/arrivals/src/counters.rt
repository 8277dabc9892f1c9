ghost use Rattle.std.specs.Prelude.{◌≤◌, length};
ghost use Rattle.bounded.specs.List.{items};

use crate::bucket::Bucket;
use bounded::Bounded;

// One counter for each staircase of a task, which has at least one.
#[derive(Clone, Copy)]
pub struct Counters {
    pub(crate) buckets: Bounded<Bucket, 4>,
    ghost some: { 1 ≤ length (items buckets) },
}
