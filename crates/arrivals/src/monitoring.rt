// What a monitor does with each event.
ghost use Rattle.std.specs.Prelude.{◌≡◌};
ghost use Rattle.arrivals.specs.Monitor.{after, answer_to, fresh, monitor_of, monitor_refusal};
ghost use Rattle.arrivals.specs.declared.counter.Event.TheVariants.{Arrival, Tick};
ghost use Rattle.tasks.specs.Reply.{reply};
ghost use Rattle.tasks.specs.Task.{task_of};

use crate::clock::LAST_READING;
use crate::counter::Event;
use crate::counters::Counters;
use crate::monitor::Monitor;
use crate::refusal::MonitorRefusal;
use tasks::Task;

impl Monitor {
    // Nothing has arrived yet, and the clock reads 0.
    pub fn new(task: &Task) -> Monitor
        ensures { monitor_of result ≡ fresh (task_of task.now) }
    {
        Monitor {
            task: *task,
            counters: Counters::new(task),
            clock: 0,
        }
    }

    // A job arrives. The answer is its due clock, or that a staircase allows no arrival now.
    pub fn arrive(&mut self) -> Result<u64, MonitorRefusal>
        ensures answer { reply (λ n. n) monitor_refusal result ≡ answer_to Arrival (monitor_of self.old) }
        ensures left { monitor_of self.new ≡ after Arrival (monitor_of self.old) }
    {
        if let Some(staircase) = self.counters.first_empty() {
            return Err(MonitorRefusal::NoToken { staircase });
        }
        self.counters.step(Event::Arrival);
        Ok(self.clock + self.task.deadline)
    }

    // A tick passes. The answer is the new reading of the clock, or that the clock is at its end.
    pub fn tick(&mut self) -> Result<u64, MonitorRefusal>
        ensures answer { reply (λ n. n) monitor_refusal result ≡ answer_to Tick (monitor_of self.old) }
        ensures left { monitor_of self.new ≡ after Tick (monitor_of self.old) }
    {
        if self.clock >= LAST_READING {
            return Err(MonitorRefusal::ClockAtEnd);
        }
        self.counters.step(Event::Tick);
        self.clock += 1;
        Ok(self.clock)
    }

    // Brings the event, an arrival or a tick: a closure or a table of the two calls would say no more.
    pub(crate) fn serve(&mut self, event: Event) -> Result<u64, MonitorRefusal>
        ensures answer { reply (λ n. n) monitor_refusal result ≡ answer_to event (monitor_of self.old) }
        ensures left { monitor_of self.new ≡ after event (monitor_of self.old) }
    {
        match event {
            Event::Arrival => self.arrive(),
            Event::Tick => self.tick(),
        }
    }
}
