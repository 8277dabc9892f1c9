// How a state begins.
ghost use Rattle.std.specs.Prelude.{◌≡◌, []};
ghost use Rattle.arrivals.specs.Clock.{last_reading};
ghost use Rattle.fit.specs.State.{fresh_state};
ghost use Rattle.state.specs.State.{opened, state_of};
ghost use Rattle.state.specs.StateRefusal.{state_refusal};
ghost use Rattle.tasks.specs.Reply.{reply};
ghost use Rattle.tasks.specs.Draft.{draft_of};

use crate::refusal::StateRefusal;
use crate::state::State;
use arrivals::LAST_READING;
use bounded::Bounded;
use lanes::{Lanes, Released};
use search::Snapshot;
use tasks::Draft;

impl State {
    // The state of a draft's tasks before any arrival, where the clock reads `reading`.
    pub fn new(draft: &Draft, reading: u64) -> Result<State, StateRefusal>
        ensures { reply state_of state_refusal result ≡ opened reading (draft_of draft.now) }
    {
        if reading > LAST_READING {
            return Err(StateRefusal::ReadingTooLate);
        }
        let lanes = Lanes::new(draft).ok_or(StateRefusal::SharesTooLarge)?;
        let fresh = Snapshot {
            lanes: &lanes,
            clock: 0,
        };
        Ok(State {
            clock: reading,
            lanes,
            released: Bounded::new(Released {
                tag: 0,
                remaining: 1,
            }),
            granted: 0,
            fresh_allowance: fresh.exact_allowance(),
        })
    }

    // The state without tasks whose clock shows its last reading.
    pub fn empty() -> State
        ensures { state_of result ≡ fresh_state last_reading [] }
    {
        let Ok(state) = State::new(&Draft::new(), LAST_READING) else {
            unreachable!();
        };
        state
    }
}
