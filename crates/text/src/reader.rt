ghost use Rattle.std.specs.Prelude.{◌≡◌, ◌≤◌, [], length};
ghost use Rattle.tasks.specs.Draft.{draft_of};
ghost use Rattle.tasks.specs.Reply.{reply};
ghost use Rattle.text.specs.Fault.{table_refusal};
ghost use Rattle.text.specs.Reading.{lines, read_after, reading, unless_long};
ghost use Rattle.text.specs.RoundTrip.{WrittenBack};

use crate::fault::{At, TableFault};
use crate::line::enter_line_at;
use tasks::Draft;

// The bytes of the longest text that is read.
pub const LONGEST_TEXT: usize = 4_096;

// Reads a table into the draft, in the place of what it held. A text that is refused leaves the draft as it was. A text that
// reads is what is written of the tasks read.
#[tactic(auto, unfolding(crate::specs::Reading::reading), using(crate::proofs::WrittenBack::written_back))]
pub fn read_table(draft: &mut Draft, text: &[u8]) -> Result<(), TableFault>
    ensures answer { reply (λ _. draft_of draft.new) table_refusal result ≡ reading text.now }
    ensures after { draft_of draft.new ≡ read_after (draft_of draft.old) (reading text.now) }
    ensures written_back { WrittenBack text.now }
{
    *draft = read_text(text)?;
    Ok(())
}

// The tasks of a text that is not too long.
fn read_text(text: &[u8]) -> Result<Draft, TableFault>
    ensures { reply draft_of table_refusal result ≡ unless_long text.now (lines (length text.now) 1 [] text.now text.now) }
{
    if text.len() > LONGEST_TEXT {
        return Err(TableFault::TooLong);
    }
    read_lines(text)
}

// The tasks of the lines.
fn read_lines(text: &[u8]) -> Result<Draft, TableFault>
    requires { length text.now ≤ 4096 }
    ensures { reply draft_of table_refusal result ≡ lines (length text.now) 1 [] text.now text.now }
{
    let mut draft = Draft::new();
    let mut rest = text;
    // counted by hand: the loop ends where no text is left, for which a `for` over the numbers has no place in its head
    let mut number = 1;
    while !rest.is_empty() {
        rest = enter_line_at(&mut draft, text, rest).map_err(|fault| At {
            place: number,
            fault,
        })?;
        number += 1;
    }
    Ok(draft)
}
