// The exact and the line allowance: every task in turn is weighed along the lengths, with what the tasks before have left.
ghost use Rattle.std.specs.Prelude.{◌≡◌, ◌≤◌};
ghost use Rattle.fit.specs.Exact.{ExactlyFits, exact_allowance};
ghost use Rattle.fit.specs.Line.{LinePasses, line_allowance};
ghost use Rattle.lanes.specs.Lanes.{lanes_of};
ghost use Rattle.search.specs.Weighing.{WeighsUpTo};

use crate::bound::{Bound, Line, Staircases};
use crate::front::Front;
use crate::snapshot::Snapshot;
use crate::turn::Turn;

impl Snapshot<'_> {
    // The greatest amount from 0 to 1,024 with which every task fits, or 0 if there is none.
    pub fn exact_allowance(self) -> u64
        ensures value { result ≡ exact_allowance self.entry.clock (lanes_of self.entry.lanes.now) }
        ensures greatest { ExactlyFits self.entry.clock (lanes_of self.entry.lanes.now) result }
    {
        self.greatest::<Staircases>()
    }

    // The greatest amount from 0 to 1,024 with which every task passes behind the lines of those before it, or 0 if there is none.
    pub fn line_allowance(self) -> u64
        ensures value { result ≡ line_allowance self.entry.clock (lanes_of self.entry.lanes.now) }
        ensures greatest { LinePasses self.entry.clock (lanes_of self.entry.lanes.now) result }
    {
        self.greatest::<Line>()
    }

    // The greatest amount from 0 to 1,024 with which every task passes behind those before it, or 0 if there is none.
    fn greatest<B: Bound>(self) -> u64
        ensures top { result ≤ 1024 }
        ensures passes { WeighsUpTo B.adds self.entry.clock (lanes_of self.entry.lanes.now) result }
    {
        let lanes = self.lanes.as_slice();
        let mut margin = 1024;
        let mut front = Front::new();
        // Counted, since the tasks before are a slice of the lanes. Three lines of this loop stand in the search for the first misfit too:
        // a function for them would have a contract longer than they are.
        for (i, lane) in lanes.iter().enumerate() {
            let ahead = B::ahead(&lanes[..i], &front);
            front.add(lane);
            let turn = Turn {
                clock: self.clock,
                lane,
                ahead,
                front,
            };
            margin = turn.margin(margin);
        }
        margin
    }
}
