// How what a task may ask is bounded for the tasks behind it.
ghost use Rattle.std.specs.Prelude.{◌≡◌, ℕ, ◌*◌, ◌≤◌, map, length as count};
ghost use Rattle.fit.proofs.Horizons.{Rated};
ghost use Rattle.fit.proofs.Rates.{line_load_rate, load_rate};
ghost use Rattle.lanes.specs.Demand.{load};
ghost use Rattle.lanes.specs.Lane.{LaneModel, lane_of};
ghost use Rattle.lanes.specs.Line.{line_load};
ghost use Rattle.search.specs.Front.{empty_front, front_of, with_lanes};
ghost use Rattle.search.specs.Weighing.{AsksFor};

use crate::ahead::Ahead;
use crate::front::Front;
use lanes::Lane;

pub(crate) trait Bound {
    // what one task adds for those behind it, in 1024ths of a tick
    ghost adds: { LaneModel → ℕ → ℕ };

    // What the tasks of the lanes `before` may ask; the front is theirs.
    fn ahead<'a>(before: &'a [Lane], front: &Front) -> Ahead<'a>
        requires few { count before.now ≤ 8 }
        requires theirs { front_of front.now ≡ with_lanes empty_front (map lane_of before.now) }
        ensures { AsksFor adds (map lane_of before.now) result };

    // at each length it is at most what stands of the task, and its share of the length
    ghost rated: { Rated adds };
}

// By all its staircases.
pub(crate) struct Staircases;

impl Bound for Staircases {
    ghost adds = { λ l y. 1024 * load l y };

    ghost rated = { load_rate };

    fn ahead<'a>(before: &'a [Lane], _front: &Front) -> Ahead<'a> {
        Ahead {
            before,
            start: 0,
            share: 0,
        }
    }
}

// By a straight line.
pub(crate) struct Line;

impl Bound for Line {
    ghost adds = { line_load };

    ghost rated = { line_load_rate };

    fn ahead<'a>(_before: &'a [Lane], front: &Front) -> Ahead<'a> {
        Ahead {
            before: &[],
            start: front.start,
            share: front.shares,
        }
    }
}
