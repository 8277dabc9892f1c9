// Faults and refusals in words.
use crate::fault::{LineCause, LineFault, NumeralFault, TableFault, WriteRefusal};
use std::fmt;
use tasks::{ByNumber, Numbered};

impl fmt::Display for NumeralFault {
    fn fmt<W: fmt::Write>(&self, f: &mut fmt::Formatter<W>) -> fmt::Result {
        match self {
            NumeralFault::LeadingZero(place) => write!(
                f,
                "the numeral at byte {place} of the line has a leading zero"
            ),
            NumeralFault::TooLarge(place) => write!(
                f,
                "the numeral at byte {place} of the line is above 65535"
            ),
        }
    }
}

impl fmt::Display for LineCause {
    fn fmt<W: fmt::Write>(&self, f: &mut fmt::Formatter<W>) -> fmt::Result {
        match self {
            LineCause::Byte(place) => write!(f, "the form is broken at byte {place} of the line"),
            LineCause::Numeral(fault) => write!(f, "{fault}"),
            LineCause::Entry(refusal) => {
                let refusal = ByNumber(refusal);
                write!(f, "the entry is refused by {refusal}")
            }
        }
    }
}

impl fmt::Display for LineFault {
    fn fmt<W: fmt::Write>(&self, f: &mut fmt::Formatter<W>) -> fmt::Result {
        let start = self.start;
        let cause = self.cause;
        write!(f, "which begins at byte {start}: {cause}")
    }
}

impl fmt::Display for TableFault {
    fn fmt<W: fmt::Write>(&self, f: &mut fmt::Formatter<W>) -> fmt::Result {
        let refusal = self.number();
        match self {
            TableFault::TooLong => write!(f, "refusal {refusal}: more than 4096 bytes"),
            TableFault::Line { number, fault } => write!(
                f,
                "refusal {refusal} in line {number}, {fault}"
            ),
        }
    }
}

impl fmt::Display for WriteRefusal {
    fn fmt<W: fmt::Write>(&self, f: &mut fmt::Formatter<W>) -> fmt::Result {
        let refusal = self.number();
        write!(
            f,
            "refusal {refusal}: the buffer is too short for the table"
        )
    }
}
