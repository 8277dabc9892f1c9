// A whole list of events, each with its answer written beside it.
ghost use Rattle.std.specs.Prelude.{◌≡◌, [], ◌∷◌, map};
ghost use Rattle.arrivals.specs.Monitor.{after, fresh, monitor_of};
ghost use Rattle.arrivals.specs.Runs.{after_all, events, heard, history, observation, observations, record_of, told};
ghost use Rattle.arrivals.specs.Windows.{AllAdmittedRightly};
ghost use Rattle.tasks.specs.Task.{task_of};

use crate::monitor::Monitor;
use crate::record::Record;
use tasks::Task;

impl Record {
    // Brings the event to the monitor, and keeps the answer.
    fn bring(&mut self, monitor: &mut Monitor)
        ensures event { self.new.event ≡ self.old.event }
        ensures answer { heard self.new.event self.new.answer ≡ observation self.old.event (monitor_of monitor.old) ∷ [] }
        ensures left { monitor_of monitor.new ≡ after self.old.event (monitor_of monitor.old) }
    {
        self.answer = Some(monitor.serve(self.event));
    }
}

// Brings the events of the records, in their order, to a fresh monitor of the task, and writes the answers into the records.
// The answer is the monitor as the last event left it. An arrival is taken exactly when the arrivals taken before, with it,
// keep every staircase over every window; a refusal names the first staircase that would not be kept.
pub fn observe(task: &Task, records: &mut [Record]) -> Monitor
    ensures answers { map record_of records.new ≡ map told (observations (fresh (task_of task.now)) (events records.old)) }
    ensures left { monitor_of result ≡ after_all (fresh (task_of task.now)) (events records.old) }
    ensures admission { AllAdmittedRightly (task_of task.now) (history records.new) }
{
    let mut monitor = Monitor::new(task);
    for record in records.iter_mut() {
        record.bring(&mut monitor);
    }
    monitor
}
