// The one maker of tasks, from plain numbers.
ghost use Rattle.std.specs.Prelude.{◌≡◌, ◌+◌, ◌≤◌, [], ◌∷◌, map, length, if◌then◌else◌, None, Ok, Err};
ghost use Rattle.bounded.specs.List.{items};
ghost use Rattle.tasks.specs.Making.{in_range, making, making_periodic, staircase_from, unless_wrong, wrong_number, wrong_staircase};
ghost use Rattle.tasks.specs.EntryRefusal.{entry_refusal};
ghost use Rattle.tasks.specs.Reply.{reply, served};
ghost use Rattle.tasks.specs.Staircase.{pending_bound, staircase_of};
ghost use Rattle.tasks.specs.Task.{task_of};
ghost use Rattle.tasks.specs.declared.refusal.EntryRefusal.TheVariants.{OutOfRange};

use crate::refusal::{EntryRefusal, Quantity};
use crate::staircase::Staircase;
use crate::task::Task;
use bounded::Bounded;

impl Quantity {
    // Refuses a value outside low..=high.
    fn check(self, value: u64, low: u64, high: u64) -> Result<(), EntryRefusal>
        ensures { result ≡ (if in_range low high value then Ok tt else Err (OutOfRange self)) }
    {
        if (low..=high).contains(&value) {
            Ok(())
        } else {
            Err(EntryRefusal::OutOfRange(self))
        }
    }
}

// The staircase with this number, unless its burst or its step is out of range.
fn make_staircase(number: u64, burst: u64, step: u64) -> Result<Staircase, EntryRefusal>
    ensures { reply staircase_of entry_refusal result ≡ unless_wrong (wrong_number number (burst, step) None) (served (staircase_from (burst, step))) }
{
    Quantity::Burst(number).check(burst, 1, 8)?;
    Quantity::Step(number).check(step, 1, 4096)?;
    Ok(Staircase { burst, step })
}

// The staircases of these pairs of burst and step, unless a number is out of range.
fn make_staircases(pairs: &[(u64, u64)]) -> Result<Bounded<Staircase, 4>, EntryRefusal>
    requires { length pairs.now ≤ 4 }
    ensures { reply (λ list. map staircase_of (items list)) entry_refusal result ≡ unless_wrong (wrong_staircase 1 pairs.now) (served (map staircase_from pairs.now)) }
{
    let mut staircases = Bounded::new(Staircase { burst: 1, step: 1 });
    // a `for` and no chain: the first refusal ends it, and names the staircase
    for (i, (burst, step)) in pairs.iter().enumerate() {
        let staircase = make_staircase(i as u64 + 1, *burst, *step)?;
        let _ = staircases.push(staircase);
    }
    Ok(staircases)
}

// The bound on the jobs that can be pending at once.
fn pending_bound(deadline: u64, staircases: &[Staircase]) -> u64
    requires { (1 ≤ deadline) × (deadline ≤ 1024) }
    ensures { result ≡ pending_bound deadline (map staircase_of staircases.now) }
{
    let bounds = staircases.iter().map(|staircase| staircase.burst
        + (deadline - 1) / staircase.step);
    bounds.min().unwrap_or(0)
}

impl Task {
    // A task of these numbers; each staircase is a pair of burst and step.
    pub fn new(limit: u64, deadline: u64, staircases: &[(u64, u64)]) -> Result<Task, EntryRefusal>
        ensures { reply task_of entry_refusal result ≡ making limit deadline staircases.now }
    {
        Quantity::Limit.check(limit, 1, 64)?;
        Quantity::Deadline.check(deadline, 1, 1024)?;
        Quantity::Count.check(staircases.len() as u64, 1, 4)?;
        let staircases = make_staircases(staircases)?;
        if pending_bound(deadline, staircases.as_slice()) > 8 {
            return Err(EntryRefusal::TooManyPending);
        }
        Ok(Task {
            limit,
            deadline,
            staircases,
        })
    }

    // The task of the smallest numbers: it stands in the places of a list that hold no task.
    pub fn smallest() -> Task
        ensures { served (task_of result) ≡ making 1 1 ((1, 1) ∷ []) }
    {
        let Ok(task) = Task::new(1, 1, &[(1, 1)]) else {
            unreachable!();
        };
        task
    }

    // A task given by period, jitter and least distance: its staircases are 1/distance and N/period, where N is one more than
    // the whole periods in the jitter.
    pub fn periodic(
        limit: u64,
        deadline: u64,
        period: u64,
        jitter: u64,
        distance: u64,
    ) -> Result<Task, EntryRefusal>
        ensures { reply task_of entry_refusal result ≡ making_periodic limit deadline period jitter distance }
    {
        Quantity::Limit.check(limit, 1, 64)?;
        Quantity::Deadline.check(deadline, 1, 1024)?;
        Quantity::Period.check(period, 1, 4096)?;
        Quantity::Jitter.check(jitter, 0, 32768)?;
        Quantity::Distance.check(distance, 1, 4096)?;
        Task::new(
            limit,
            deadline,
            &[(1, distance), (jitter / period + 1, period)],
        )
    }
}
