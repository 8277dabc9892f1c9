ghost use Rattle.std.specs.Prelude.{◌≡◌, true};
ghost use Rattle.bounded.specs.List.{items};
ghost use Rattle.gate.specs.Queue.{offers_within};

use crate::offer::Offer;
use bounded::Bounded;
use state::State;

// A state, the queue of background jobs that are not handed out yet, oldest first, and the rule that tells the allowance. A
// gate cannot be copied, so that no call is made to a copy by mistake.
#[derive(Drop)]
pub struct Gate<R> {
    pub(crate) state: State,
    pub(crate) queue: Bounded<Offer, 32>,
    pub(crate) rule: R,
    ghost costs: { offers_within (items queue) ≡ true },
}
