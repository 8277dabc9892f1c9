// What a state tells of itself.
ghost use Rattle.std.specs.Prelude.{◌≡◌, ◌≤◌, length};
ghost use Rattle.arrivals.specs.Clock.{last_reading};
ghost use Rattle.fit.specs.Exact.{fresh_allowance_of};
ghost use Rattle.fit.specs.Fit.{FirstMisfit};
ghost use Rattle.fit.specs.Search.{first_misfit};
ghost use Rattle.fit.specs.State.{idle, none_pending, pending_count, released_work, state_tasks};
ghost use Rattle.lanes.specs.Lanes.{lanes_of};
ghost use Rattle.state.specs.State.{state_of};

use crate::state::State;
use lanes::{Lanes, Released};
use search::Snapshot;

impl State {
    // The instant that the clock reads.
    pub fn clock(&self) -> u64
        ensures value { result ≡ (state_of self.now).clock }
        ensures bound { result ≤ last_reading }
    {
        self.clock
    }

    // The tasks with their counters and pending jobs, the one with the highest priority first.
    pub fn lanes(&self) -> &Lanes
        ensures { lanes_of result.now ≡ (state_of self.now).lanes }
    {
        &self.lanes
    }

    // The lanes at the instant that the clock reads.
    pub fn snapshot(&self) -> Snapshot<'_>
        ensures clock { result.clock ≡ (state_of self.now).clock }
        ensures lanes { lanes_of result.lanes.now ≡ (state_of self.now).lanes }
    {
        Snapshot {
            lanes: &self.lanes,
            clock: self.clock,
        }
    }

    // The background jobs that were handed out and have not ended, oldest first.
    pub fn released(&self) -> &[Released]
        ensures value { result.now ≡ (state_of self.now).released }
        ensures bound { length result.now ≤ 32 }
    {
        self.released.as_slice()
    }

    // The cost handed out since the processor was last idle, held at 1,025 once above 1,024.
    pub fn granted(&self) -> u64
        ensures value { result ≡ (state_of self.now).granted }
        ensures bound { result ≤ 1025 }
    {
        self.granted
    }

    // The exact allowance of the same tasks before any arrival.
    pub fn fresh_allowance(&self) -> u64
        ensures value { result ≡ fresh_allowance_of (state_tasks (state_of self.now)) }
        ensures bound { result ≤ 1024 }
    {
        self.fresh_allowance
    }

    // What remains of the released background jobs.
    pub fn released_work(&self) -> u64
        ensures value { result ≡ released_work (state_of self.now) }
        ensures bound { result ≤ 32768 }
    {
        self.released().iter().map(|job| job.remaining).sum()
    }

    // How many critical jobs are pending.
    pub fn pending_count(&self) -> u64
        ensures value { result ≡ pending_count (state_of self.now).lanes }
        ensures bound { result ≤ 64 }
    {
        let lanes = self.lanes.as_slice().iter();
        lanes.map(|lane| lane.pending().len() as u64).sum()
    }

    // Whether no critical job is pending and no background job released.
    pub fn is_idle(&self) -> bool
        ensures { result ≡ idle (state_of self.now) }
    {
        self.none_pending() && self.released().is_empty()
    }

    // Whether no critical job is pending.
    fn none_pending(&self) -> bool
        ensures { result ≡ none_pending (state_of self.now).lanes }
    {
        let mut lanes = self.lanes.as_slice().iter();
        lanes.all(|lane| lane.pending().is_empty())
    }

    // The number, counted from 1, of the first task that does not fit with the amount.
    pub fn first_misfit(&self, amount: u64) -> Option<u64>
        ensures value { result ≡ first_misfit (state_of self.now).clock amount (state_of self.now).lanes }
        ensures first { FirstMisfit (state_of self.now).clock amount (state_of self.now).lanes result }
    {
        self.snapshot().first_misfit(amount)
    }
}
