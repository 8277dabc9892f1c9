// One task in its turn: weighed along the lengths, behind the tasks before it.
ghost use Rattle.std.specs.Prelude.{ℕ, ◌+◌, ◌*◌, ◌≤◌};
ghost use Rattle.lanes.specs.Demand.{demand};
ghost use Rattle.lanes.specs.Lane.{lane_of};
ghost use Rattle.search.specs.Ahead.{ahead_at};

use crate::ahead::Ahead;
use crate::front::Front;
use lanes::Lane;

#[derive(Clone, Copy)]
pub(crate) struct Turn<'a> {
    pub(crate) clock: u64,
    pub(crate) lane: &'a Lane,
    // what the tasks before may ask
    pub(crate) ahead: Ahead<'a>,
    // the tasks up to this one: together they ask at most for what stands of them and for their shares
    pub(crate) front: Front,
    ghost below: { (y : ℕ) → 1024 * demand clock (lane_of lane.now) y + ahead_at ahead y ≤ 1024 * front.standing + front.shares * y },
}

impl Turn<'_> {
    ghost use Rattle.search.specs.Turn.{PassesUpTo, own_demand};

    // The greatest amount, up to `most`, with which the task passes at every length, or 0. Inlined, as `Ahead::at` is, so that
    // the sweep of each rule is one loop, without a call at each length.
    #[inline(always)]
    pub(crate) fn margin(&self, most: u64) -> u64
        requires { most ≤ 8192 }
        ensures bound { result ≤ most }
        ensures passes { PassesUpTo self.now most result }
    {
        // Kept by hand, since the loop ends as soon as no length can lower the margin: a fold would go on to the horizon.
        let mut margin = most;
        // the most that a length so far leaves free
        let mut slack = 0;
        for length in 0..self.front.horizon(most) {
            if margin == 0 || self.front.suffices(length, margin) {
                break;
            }
            slack = slack.max(self.ahead.free(length));
            let demand = self.lane.demand(self.clock, length);
            if demand > 0 {
                margin = margin.min(slack.saturating_sub(demand));
            }
        }
        margin
    }
}
