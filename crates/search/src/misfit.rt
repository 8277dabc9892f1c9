// The first task that does not fit.
ghost use Rattle.std.specs.Prelude.{◌≡◌, ◌≤◌};
ghost use Rattle.fit.specs.Fit.{FirstMisfit};
ghost use Rattle.fit.specs.Search.{first_misfit};
ghost use Rattle.lanes.specs.Lanes.{lanes_of};

use crate::bound::{Bound, Staircases};
use crate::front::Front;
use crate::snapshot::Snapshot;

// With this amount no task fits: a job of it can be due within a deadline and a step, which come to at most that.
const TOO_MUCH: u64 = 5120;

impl Snapshot<'_> {
    // The number, counted from 1, of the first task that does not fit with the amount.
    pub fn first_misfit(self, amount: u64) -> Option<u64>
        ensures value { result ≡ first_misfit self.entry.clock amount (lanes_of self.entry.lanes.now) }
        ensures first { FirstMisfit self.entry.clock amount (lanes_of self.entry.lanes.now) result }
    {
        self.search(amount.min(TOO_MUCH))
    }

    // The same for an amount that is not too large.
    fn search(self, amount: u64) -> Option<u64>
        requires { amount ≤ 5120 }
        ensures { FirstMisfit self.entry.clock amount (lanes_of self.entry.lanes.now) result }
    {
        let lanes = self.lanes.as_slice();
        let mut front = Front::new();
        // nested, and left from inside with the task's number, so that the search is seen as one
        'search: {
            // counted, since the tasks before are a slice of the lanes
            for (i, lane) in lanes.iter().enumerate() {
                let ahead = Staircases::ahead(&lanes[..i], &front);
                front.add(lane);
                // The least length that may be enough: it never goes back, since the demand does not fall with the length.
                let mut enough = 0;
                for length in 0..front.horizon(amount) {
                    let demand = lane.demand(self.clock, length);
                    if demand > 0 {
                        let Some(first) = ahead.first_enough(enough, length, amount + demand) else {
                            break 'search Some(i as u64 + 1);
                        };
                        enough = first;
                    }
                }
            }
            None
        }
    }
}
