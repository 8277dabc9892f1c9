use super::*;
use std::test::Fail;
use tasks::{Draft, EntryRefusal, Quantity};

// The fault of a text, read into an empty draft.
fn fault(text: &[u8]) -> Option<TableFault> {
    let mut draft = Draft::new();
    read_table(&mut draft, text).err()
}

// A fault of the first line.
fn first(cause: LineCause) -> Option<TableFault> {
    line(1, 0, cause)
}

fn line(number: usize, start: usize, cause: LineCause) -> Option<TableFault> {
    Some(TableFault::Line {
        number,
        fault: LineFault { start, cause },
    })
}

#[test]
fn bytes_that_are_not_allowed(rt: HostRuntime) {
    assert_eq!(rt; fault(b"x"), first(LineCause::Byte(0)));
    assert_eq!(rt; fault(b"task x"), first(LineCause::Byte(5)));
    assert_eq!(rt; fault(b"task 3 50 1/20"), first(LineCause::Byte(14)));
    assert_eq!(rt; fault(b"task 3 50 1/20\r\n"), first(LineCause::Byte(14)));
    assert_eq!(rt; fault(b"task 3 50\n"), first(LineCause::Byte(9)));
    assert_eq!(rt;
        fault(b"task 3 50 1/20 1/20 1/20 1/20 1/20\n"),
        first(LineCause::Byte(29))
    );
    assert_eq!(rt;
        fault(b"task 3 50 1/20\n\n"),
        line(2, 15, LineCause::Byte(0))
    );
    assert_eq!(rt; fault(&[b' '; 4097]), Some(TableFault::TooLong));
}

#[test]
fn numerals_that_are_not_allowed(rt: HostRuntime) {
    assert_eq!(rt;
        fault(b"task 02x"),
        first(LineCause::Numeral(NumeralFault::LeadingZero(5)))
    );
    assert_eq!(rt;
        fault(b"task 65536 50 1/20\n"),
        first(LineCause::Numeral(NumeralFault::TooLarge(5)))
    );
    assert_eq!(rt;
        fault(b"task 3 50 1/99999999999999999999\n"),
        first(LineCause::Numeral(NumeralFault::TooLarge(12)))
    );
}

#[test]
fn entries_that_are_refused(rt: HostRuntime) {
    let limit = EntryRefusal::OutOfRange(Quantity::Limit);
    assert_eq!(rt;
        fault(b"task 65535 50 1/20\n"),
        first(LineCause::Entry(limit))
    );
    assert_eq!(rt;
        fault(b"task 3 1024 1/1\n"),
        first(LineCause::Entry(EntryRefusal::TooManyPending))
    );
    let nine =
        b"task 1 1 1/1\ntask 1 1 1/1\ntask 1 1 1/1\ntask 1 1 1/1\ntask 1 1 1/1\ntask 1 1 1/1\ntask 1 1 1/1\ntask 1 1 1/1\ntask 1 1 1/1\n";
    assert_eq!(rt;
        fault(nine),
        line(9, 104, LineCause::Entry(EntryRefusal::DraftFull))
    );
}

#[test]
fn read_and_written_back(rt: HostRuntime) -> Result<(), Fail> {
    let text = b"task 3 50 1/20 4/100\n";
    let mut draft = Draft::new();
    read_table(&mut draft, text)?;
    let mut buffer = [b'.'; 22];
    assert_eq!(rt; write_table(&draft, &mut buffer), Ok(21));
    assert_eq!(rt; &buffer, b"task 3 50 1/20 4/100\n.");
    let mut short = [b'.'; 20];
    assert_eq!(rt;
        write_table(&draft, &mut short),
        Err(WriteRefusal::ShortBuffer)
    );
    assert_eq!(rt; &short, b"....................");
    Ok(())
}

// What a fault says in words.
fn said(rt: &HostRuntime, text: &[u8]) -> Result<String, Fail> {
    let Some(fault) = fault(text) else {
        return Err(Fail::new("the text reads"));
    };
    Ok(format!(in rt.alloc(); "{fault}")?)
}

#[test]
fn faults_in_words(rt: HostRuntime) -> Result<(), Fail> {
    assert_eq!(rt;
        said(&rt, &[b'x'; 4097])?.as_str(),
        "refusal 17: more than 4096 bytes"
    );
    assert_eq!(rt;
        said(&rt, b"task 1 5 1/9\ntask 3")?.as_str(),
        "refusal 18 in line 2, which begins at byte 13: the form is broken at byte 6 of the line"
    );
    assert_eq!(rt;
        said(&rt, b"task 02 ")?.as_str(),
        "refusal 19 in line 1, which begins at byte 0: the numeral at byte 5 of the line has a leading zero"
    );
    assert_eq!(rt;
        said(&rt, b"task 3 65536")?.as_str(),
        "refusal 19 in line 1, which begins at byte 0: the numeral at byte 7 of the line is above 65535"
    );
    assert_eq!(rt;
        said(&rt, b"task 3 50 1/20 9/100\n")?.as_str(),
        "refusal 20 in line 1, which begins at byte 0: the entry is refused by 2, the burst of staircase 2 is out of range"
    );
    let refusal = WriteRefusal::ShortBuffer;
    assert_eq!(rt;
        format!(in rt.alloc(); "{refusal}")?.as_str(),
        "refusal 21: the buffer is too short for the table"
    );
    Ok(())
}
