ghost use Rattle.std.specs.Prelude.{◌≡◌, ◌≤◌, true, ◌&&◌, if◌then◌else◌};
ghost use Rattle.arrivals.specs.Clock.{last_reading};
ghost use Rattle.bounded.specs.List.{items};
ghost use Rattle.fit.specs.Exact.{fresh_allowance_of};
ghost use Rattle.fit.specs.WellFormed.{all_in_order, costs_within};
ghost use Rattle.fit.specs.State.{none, none_pending};
ghost use Rattle.lanes.specs.Lane.{tasks_of};
ghost use Rattle.lanes.specs.Lanes.{lanes_of};

use bounded::Bounded;
use lanes::{Lanes, Released};

// What every state has stands in its type: the clock reads at most 10^15; the pending jobs of a task are due in their order, and
// none later than one that arrives now; a released job has 1 to 1,024 ticks left; the cost granted is held at 1,025 and is 0 when
// the processor is idle; and the fresh allowance is the exact allowance of the same tasks before any arrival.
#[derive(Drop)]
pub struct State {
    pub(crate) clock: u64,
    pub(crate) lanes: Lanes,
    // handed out and not ended, oldest first
    pub(crate) released: Bounded<Released, 32>,
    // the cost handed out since the processor was last idle, held at 1,025 once above 1,024
    pub(crate) granted: u64,
    pub(crate) fresh_allowance: u64,
    ghost readable: { clock ≤ last_reading },
    ghost dues: { all_in_order clock (lanes_of lanes) ≡ true },
    ghost costs: { costs_within (items released) ≡ true },
    ghost held: { granted ≤ 1025 },
    ghost settled: { (if none_pending (lanes_of lanes) && none (items released) then granted else 0) ≡ 0 },
    ghost fresh: { fresh_allowance ≡ fresh_allowance_of (tasks_of (lanes_of lanes)) },
}
