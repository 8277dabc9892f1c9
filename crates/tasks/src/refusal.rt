ghost use Rattle.std.specs.Prelude.{◌≡◌};
ghost use Rattle.tasks.specs.EntryRefusal.{entry_refusal};
ghost use Rattle.tasks.specs.Reply.{Refusal};

use std::fmt;

// A refusal that the manual lists under a number.
pub trait Numbered {
    // the refusal by its number and the values that go with it
    ghost shown: { Self → Refusal };

    // The number under which the manual lists the refusal.
    fn number(&self) -> u64
        ensures { result ≡ (shown self.now).number };
}

// A refusal in words, behind its number.
#[derive(Clone, Copy)]
pub struct ByNumber<'a, R>(pub &'a R);

impl<R: Numbered + fmt::Display> fmt::Display for ByNumber<'_, R> {
    fn fmt<W: fmt::Write>(&self, f: &mut fmt::Formatter<W>) -> fmt::Result {
        let refusal = self.0;
        let number = refusal.number();
        write!(f, "{number}, {refusal}")
    }
}

// The numbers that an entry brings. Those of a staircase say which staircase, counted from 1.
#[derive(Clone, Copy, PartialEq, Eq, Debug)]
pub enum Quantity {
    Limit,
    Deadline,
    Period,
    Jitter,
    Distance,
    Count,
    Burst(u64),
    Step(u64),
}

// Why a task is not entered.
#[derive(Clone, Copy, PartialEq, Eq, Debug)]
pub enum EntryRefusal {
    // eight tasks are there
    DraftFull,
    // the first number that is out of its range
    OutOfRange(Quantity),
    // the staircases allow more than eight jobs to be pending at once
    TooManyPending,
}

impl Numbered for EntryRefusal {
    ghost shown = { entry_refusal };

    fn number(&self) -> u64 {
        match self {
            EntryRefusal::DraftFull => 1,
            EntryRefusal::OutOfRange(_) => 2,
            EntryRefusal::TooManyPending => 3,
        }
    }
}

impl fmt::Display for Quantity {
    fn fmt<W: fmt::Write>(&self, f: &mut fmt::Formatter<W>) -> fmt::Result {
        match self {
            Quantity::Limit => write!(f, "the execution limit"),
            Quantity::Deadline => write!(f, "the deadline"),
            Quantity::Period => write!(f, "the period"),
            Quantity::Jitter => write!(f, "the jitter"),
            Quantity::Distance => write!(f, "the least distance"),
            Quantity::Count => write!(f, "the count of staircases"),
            Quantity::Burst(number) => write!(f, "the burst of staircase {number}"),
            Quantity::Step(number) => write!(f, "the step of staircase {number}"),
        }
    }
}

impl fmt::Display for EntryRefusal {
    fn fmt<W: fmt::Write>(&self, f: &mut fmt::Formatter<W>) -> fmt::Result {
        match self {
            EntryRefusal::DraftFull => write!(f, "eight tasks are there"),
            EntryRefusal::OutOfRange(quantity) => write!(f, "{quantity} is out of range"),
            EntryRefusal::TooManyPending => write!(f, "more than eight jobs could be pending"),
        }
    }
}
