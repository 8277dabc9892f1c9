// A place for a gate, its opening and its closing.
ghost use Rattle.std.specs.Prelude.{◌≡◌, []};
ghost use Rattle.bounded.specs.List.{items};
ghost use Rattle.gate.specs.Closing.{closing_of};
ghost use Rattle.gate.specs.Gate.{gate_of, unopened};
ghost use Rattle.gate.specs.Opening.{open_answer, open_gate};
ghost use Rattle.gate.specs.OpensRightly.{OpensRightly};
ghost use Rattle.gate.specs.OpenRefusal.{open_refusal};
ghost use Rattle.gate.specs.Preparing.{preparation, prepared};
ghost use Rattle.tasks.specs.Draft.{draft_of};
ghost use Rattle.tasks.specs.Reply.{reply};

use crate::closing::Closing;
use crate::gate::Gate;
use crate::offer::Offer;
use crate::refusal::OpenRefusal;
use bounded::Bounded;
use rules::Allowance;
use state::State;
use tasks::Draft;

impl<R: Allowance> Gate<R> {
    // A place for a gate under this rule. Until it is opened it is a gate without tasks or jobs whose clock shows its last
    // reading.
    pub fn new(rule: R) -> Gate<R>
        ensures gate { gate_of result ≡ unopened }
        ensures rule { result.rule ≡ rule }
    {
        Gate {
            state: State::empty(),
            queue: empty_queue(),
            rule,
        }
    }

    // Opens the gate on a draft's tasks where the clock reads `reading`, and answers the opening allowance. What was in the
    // place before is gone then; a refusal leaves it as it was.
    pub fn open(&mut self, draft: &Draft, reading: u64) -> Result<u64, OpenRefusal>
        ensures answer { reply (λ n. n) open_refusal result ≡ open_answer (R.Allowance.meaning self.old.rule) reading (draft_of draft.now) }
        ensures after { gate_of self.new ≡ open_gate (R.Allowance.meaning self.old.rule) reading (draft_of draft.now) (gate_of self.old) }
        ensures rule { self.new.rule ≡ self.old.rule }
        ensures right { OpensRightly reading (draft_of draft.now) (reply (λ n. n) open_refusal result) }
    {
        let (state, allowance) = self.prepare(draft, reading)?;
        self.state = state;
        self.queue = empty_queue();
        Ok(allowance)
    }

    // The state with which the gate opens, and the opening allowance.
    fn prepare(&self, draft: &Draft, reading: u64) -> Result<(State, u64), OpenRefusal>
        ensures answer { reply preparation open_refusal result ≡ prepared (R.Allowance.meaning self.now.rule) reading (draft_of draft.now) }
    {
        if draft.tasks().is_empty() {
            return Err(OpenRefusal::NoTask);
        }
        let state = State::new(draft, reading)?;
        if let Some(task) = state.first_misfit(0) {
            return Err(OpenRefusal::Misfit { task });
        }
        let allowance = self.rule.allowance(&state);
        if allowance == 0 {
            return Err(OpenRefusal::NothingAllowed);
        }
        Ok((state, allowance))
    }
}

impl<R: Allowance + Drop> Gate<R> {
    // Ends the gate. The answer is its clock, and how many jobs were pending, released and queued.
    pub fn close(self) -> Closing
        ensures { result ≡ closing_of (gate_of self) }
    {
        Closing {
            clock: self.state.clock(),
            pending: self.state.pending_count(),
            released: self.state.released().len() as u64,
            queued: self.queue.as_slice().len() as u64,
        }
    }
}

fn empty_queue() -> Bounded<Offer, 32>
    ensures { items result ≡ [] }
{
    Bounded::new(Offer { tag: 0, cost: 1 })
}
