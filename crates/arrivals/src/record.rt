ghost use Rattle.std.specs.Prelude.{◌≡◌, None};

use crate::counter::Event;
use crate::refusal::MonitorRefusal;

// An event for a monitor, and the place for its answer: a due clock for an arrival, the new reading for a tick, or a refusal. An
// Option of a Result: an event that was not brought yet has no answer at all.
#[derive(Clone, Copy)]
pub struct Record {
    pub event: Event,
    pub answer: Option<Result<u64, MonitorRefusal>>,
}

// An event that has no answer yet.
impl From<Event> for Record {
    ghost from_gives = { λ event r. r ≡ record { event = event; answer = None } };

    fn from(event: Event) -> Record {
        Record {
            event,
            answer: None,
        }
    }
}
