ghost use Rattle.arrivals.specs.Monitor.{monitor_refusal};

use std::fmt;
use tasks::Numbered;

// Why a monitor does not serve an event.
#[derive(Clone, Copy, PartialEq, Eq, Debug)]
pub enum MonitorRefusal {
    // a staircase has no token left: the first such, counted from 1
    NoToken { staircase: u64 },
    // the clock shows its last reading
    ClockAtEnd,
}

impl Numbered for MonitorRefusal {
    ghost shown = { monitor_refusal };

    fn number(&self) -> u64 {
        match self {
            MonitorRefusal::NoToken { .. } => 10,
            MonitorRefusal::ClockAtEnd => 12,
        }
    }
}

impl fmt::Display for MonitorRefusal {
    fn fmt<W: fmt::Write>(&self, f: &mut fmt::Formatter<W>) -> fmt::Result {
        match self {
            MonitorRefusal::NoToken { staircase } => write!(
                f,
                "staircase {staircase} allows no arrival now"
            ),
            MonitorRefusal::ClockAtEnd => write!(f, "the clock is at its end"),
        }
    }
}
