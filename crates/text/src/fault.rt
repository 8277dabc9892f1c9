// What is wrong with a text. Each layer keeps the fault of the layer below it and adds the place that it knows of.
ghost use Rattle.std.specs.Prelude.{◌≡◌};
ghost use Rattle.text.specs.Fault.{cause_refusal, numeral_refusal, table_refusal, write_refusal};
ghost use Rattle.text.specs.declared.fault.LineCause.TheVariants.{Entry, Numeral};
ghost use Rattle.text.specs.declared.fault.TableFault.TheVariants.{Line};

use tasks::{EntryRefusal, Numbered};

// A numeral that is not allowed, with the place of its first byte in its line.
#[derive(Clone, Copy, PartialEq, Eq, Debug)]
pub enum NumeralFault {
    // a zero in front of another digit
    LeadingZero(usize),
    // more than 65,535
    TooLarge(usize),
}

// What is wrong inside a line.
#[derive(Clone, Copy, PartialEq, Eq, Debug)]
pub enum LineCause {
    // a byte that the form does not allow there, or the end of the text, with its place in the line
    Byte(usize),
    Numeral(NumeralFault),
    // the line's task is not entered
    Entry(EntryRefusal),
}

// A line that is not read, with the place of its first byte in the text.
#[derive(Clone, Copy, PartialEq, Eq, Debug)]
pub struct LineFault {
    pub start: usize,
    pub cause: LineCause,
}

// What is wrong with a table.
#[derive(Clone, Copy, PartialEq, Eq, Debug)]
pub enum TableFault {
    // more than 4,096 bytes
    TooLong,
    // a line's fault, with the line's number, counted from 1
    Line { number: usize, fault: LineFault },
}

// Why a table is not written.
#[derive(Clone, Copy, PartialEq, Eq, Debug)]
pub enum WriteRefusal {
    ShortBuffer,
}

// A fault with the place that the layer above adds: each layer turns the fault below by From, and From takes one value.
pub(crate) struct At<F> {
    pub(crate) place: usize,
    pub(crate) fault: F,
}

impl From<NumeralFault> for LineCause {
    ghost from_gives = { λ f r. r ≡ Numeral f };

    fn from(fault: NumeralFault) -> LineCause {
        LineCause::Numeral(fault)
    }
}

impl From<EntryRefusal> for LineCause {
    ghost from_gives = { λ f r. r ≡ Entry f };

    fn from(refusal: EntryRefusal) -> LineCause {
        LineCause::Entry(refusal)
    }
}

impl From<At<LineCause>> for LineFault {
    ghost from_gives = { λ f r. r ≡ record { start = f.place; cause = f.fault } };

    fn from(at: At<LineCause>) -> LineFault {
        let At { place, fault } = at;
        LineFault {
            start: place,
            cause: fault,
        }
    }
}

impl From<At<LineFault>> for TableFault {
    ghost from_gives = { λ f r. r ≡ Line f.place f.fault };

    fn from(at: At<LineFault>) -> TableFault {
        let At { place, fault } = at;
        TableFault::Line {
            number: place,
            fault,
        }
    }
}

impl Numbered for NumeralFault {
    ghost shown = { numeral_refusal };

    fn number(&self) -> u64 {
        match self {
            NumeralFault::LeadingZero(_) | NumeralFault::TooLarge(_) => 19,
        }
    }
}

impl Numbered for LineCause {
    ghost shown = { cause_refusal };

    fn number(&self) -> u64 {
        match self {
            LineCause::Byte(_) => 18,
            LineCause::Numeral(fault) => fault.number(),
            LineCause::Entry(_) => 20,
        }
    }
}

impl Numbered for TableFault {
    ghost shown = { table_refusal };

    fn number(&self) -> u64 {
        match self {
            TableFault::TooLong => 17,
            TableFault::Line { fault, .. } => fault.cause.number(),
        }
    }
}

impl Numbered for WriteRefusal {
    ghost shown = { write_refusal };

    fn number(&self) -> u64 {
        match self {
            WriteRefusal::ShortBuffer => 21,
        }
    }
}
