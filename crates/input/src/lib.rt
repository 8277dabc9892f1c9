// A table that a program reads to the end of its input. It is for the host's side: the bytes are kept on the heap while they are read.
#![tactic(auto)]

ghost use Rattle.std.specs.Prelude.{◌≡◌, IfOk, IfSome};
ghost use Rattle.tasks.specs.Draft.{draft_of};
ghost use Rattle.tasks.specs.Reply.{reply};
ghost use Rattle.text.specs.Fault.{table_refusal};
ghost use Rattle.text.specs.Reading.{reading};

use std::alloc::Global;
use std::io;
use std::io::Read;
use tasks::Draft;
use text::{LONGEST_TEXT, TableFault, read_table};

// The tasks of the table that the reader gives, or what is wrong with it. An error is one of the reader or of the memory. Two Results,
// since a program answers the one by words and is ended by the other.
pub fn read_draft<R: Read + Drop>(heap: Global, reader: R) -> io::Result<Result<Draft, TableFault>>
    ensures { IfOk result (λ read. IfSome (R.remaining reader) (λ text. reply draft_of table_refusal read ≡ reading text)) }
{
    let mut bytes = Vec::new(heap);
    // one byte more than a table may have, so that a longer one is refused and not cut off
    reader
        .take(LONGEST_TEXT as u64 + 1)
        .read_to_end(&mut bytes)?;
    let mut draft = Draft::new();
    Ok(read_table(&mut draft, bytes.as_slice()).map(|()| draft))
}

#[cfg(test)]
mod tests {
    use super::*;
    use std::test::Fail;

    #[test]
    fn table_is_read_to_its_end(rt: HostRuntime) -> Result<(), Fail> {
        let text: &[u8] = b"task 3 50 1/20\ntask 1 9 1/10\n";
        let Ok(draft) = read_draft(rt.alloc(), text)? else {
            return Err(Fail::new("the table is refused"));
        };
        assert_eq!(rt; draft.tasks().len(), 2);
        Ok(())
    }

    #[test]
    fn longer_text_is_refused_and_not_cut_off(rt: HostRuntime) -> Result<(), Fail> {
        let text: &[u8] = &[b' '; 5000];
        match read_draft(rt.alloc(), text)? {
            Ok(_) => Err(Fail::new("the table is read")),
            Err(fault) => {
                assert_eq!(rt; fault, TableFault::TooLong);
                Ok(())
            }
        }
    }
}
