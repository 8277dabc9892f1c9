// The events that bring arrivals at given instants.
ghost use Rattle.std.specs.Prelude.{◌≡◌, ◌++◌, replicate, IfOk, OnOk};
ghost use Rattle.arrivals.specs.Runs.{events};
ghost use Rattle.arrivals.specs.declared.counter.Event.TheVariants.{Tick};
ghost use Rattle.monitor.specs.Schedule.{scheduled};

use arrivals::{Event, Record};
use std::alloc::{AllocError, Global};

fn wait(records: &mut Vec<Record>, ticks: u64) -> Result<(), AllocError>
    ensures { OnOk result (events records.new.items ≡ events records.old.items ++ replicate ticks Tick) }
{
    for _ in 0..ticks {
        records.push(Event::Tick.into())?;
    }
    Ok(())
}

// Ticks up to each instant, and an arrival there. An instant that has passed means now.
pub(crate) fn schedule(heap: Global, instants: &[u64]) -> Result<Vec<Record>, AllocError>
    ensures { IfOk result (λ v. events v.items ≡ scheduled 0 instants.now) }
{
    let mut records = Vec::new(heap);
    let mut clock = 0;
    for instant in instants {
        wait(&mut records, instant.saturating_sub(clock))?;
        records.push(Event::Arrival.into())?;
        clock = clock.max(*instant);
    }
    Ok(records)
}
