// The lemmas that the searches and the gate share: a function for each, whose contract is the statement.
ghost use Rattle.fit.specs.Decided.{HorizonDecides};
ghost use Rattle.fit.specs.FitBehind.{AllFitBehind};
ghost use Rattle.fit.specs.FreshAllowance.{FreshAtAnyReading};
ghost use Rattle.fit.specs.Horizon.{LongLengthsSuffice};
ghost use Rattle.fit.specs.Keeps.{ArrivalKeepsFit, FitIsInTime, IdleFitsAsFresh, TickKeepsFit};

// From a length on that goes by the present backlog, every length is itself enough.
pub fn long_lengths_suffice_stands()
    ensures { LongLengthsSuffice }
{}

// The searches up to 16K decide what asks for every length: no length above decides.
pub fn horizon_decides_stands()
    ensures { HorizonDecides }
{}

// Every task fits exactly if each fits behind the tasks of the lanes before it.
pub fn all_fit_behind_stands()
    ensures { AllFitBehind }
{}

// The fresh allowance does not depend on the reading of the clock.
pub fn fresh_at_any_reading_stands()
    ensures { FreshAtAnyReading }
{}

// An admitted arrival keeps the fit of its own task and of those behind it.
pub fn arrival_keeps_fit_stands()
    ensures { ArrivalKeepsFit }
{}

// A tick keeps the fit of a task if a background job runs, a task before it, or the task itself.
pub fn tick_keeps_fit_stands()
    ensures { TickKeepsFit }
{}

// A task with nothing pending, behind tasks with nothing pending, fits as when fresh.
pub fn idle_fits_as_fresh_stands()
    ensures { IdleFitsAsFresh }
{}

// A task that fits has no pending job at or past its due clock.
pub fn fit_is_in_time_stands()
    ensures { FitIsInTime }
{}
