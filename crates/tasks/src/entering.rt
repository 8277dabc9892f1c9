ghost use Rattle.std.specs.Prelude.{◌≡◌, []};
ghost use Rattle.tasks.specs.Draft.{draft_of, entered, entry_answer};
ghost use Rattle.tasks.specs.Making.{making, making_periodic};
ghost use Rattle.tasks.specs.EntryRefusal.{entry_refusal};
ghost use Rattle.tasks.specs.Reply.{reply};
ghost use Rattle.tasks.specs.Task.{task_of};

use crate::draft::Draft;
use crate::refusal::EntryRefusal;
use crate::task::Task;
use bounded::Bounded;

impl Draft {
    // No tasks yet.
    pub fn new() -> Draft
        ensures { draft_of result ≡ [] }
    {
        Draft {
            tasks: Bounded::new(Task::smallest()),
        }
    }

    // Adds the task of these numbers behind the others, and answers its number; each staircase is a pair of burst and step.
    pub fn enter(
        &mut self,
        limit: u64,
        deadline: u64,
        staircases: &[(u64, u64)],
    ) -> Result<u64, EntryRefusal>
        ensures answer { reply (λ n. n) entry_refusal result ≡ entry_answer (draft_of self.old) (making limit deadline staircases.now) }
        ensures after { draft_of self.new ≡ entered (draft_of self.old) (making limit deadline staircases.now) }
    {
        self.add(Task::new(limit, deadline, staircases))
    }

    // The same for a task given by its period, its jitter and the least distance between two arrivals. Calls take plain numbers
    // and refuse: a struct of numbers that nobody has looked at would be a name more for a caller, and no fact.
    pub fn enter_periodic(
        &mut self,
        limit: u64,
        deadline: u64,
        period: u64,
        jitter: u64,
        distance: u64,
    ) -> Result<u64, EntryRefusal>
        ensures answer { reply (λ n. n) entry_refusal result ≡ entry_answer (draft_of self.old) (making_periodic limit deadline period jitter distance) }
        ensures after { draft_of self.new ≡ entered (draft_of self.old) (making_periodic limit deadline period jitter distance) }
    {
        self.add(Task::periodic(limit, deadline, period, jitter, distance))
    }

    // Adds a task that was made. A full draft refuses before any other refusal.
    fn add(&mut self, made: Result<Task, EntryRefusal>) -> Result<u64, EntryRefusal>
        ensures answer { reply (λ n. n) entry_refusal result ≡ entry_answer (draft_of self.old) (reply task_of entry_refusal made) }
        ensures after { draft_of self.new ≡ entered (draft_of self.old) (reply task_of entry_refusal made) }
    {
        let count = self.tasks.as_slice().len();
        if count >= 8 {
            return Err(EntryRefusal::DraftFull);
        }
        let task = made?;
        let _ = self.tasks.push(task);
        Ok(count as u64 + 1)
    }
}
