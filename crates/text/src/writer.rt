ghost use Rattle.std.specs.Prelude.{◌≡◌, ◌≤◌, length, IfOk, IsOk};
ghost use Rattle.tasks.specs.Draft.{draft_of};
ghost use Rattle.tasks.specs.Reply.{reply};
ghost use Rattle.text.specs.Fault.{write_refusal};
ghost use Rattle.text.specs.RoundTrip.{ReadsBack};
ghost use Rattle.text.specs.Writing.{write_after, write_answer};

use crate::fault::WriteRefusal;
use crate::table_text::{LONGEST_TABLE, TableText};
use tasks::Draft;

// Writes the table of the draft's tasks to the front of the buffer, and answers its length. A buffer that is too short stays
// as it was, and one of the bytes of the longest table is never too short. What is written reads back as the draft.
#[tactic(auto, using(crate::proofs::ReadsBack::draft_reads_back))]
pub fn write_table(draft: &Draft, buffer: &mut [u8]) -> Result<usize, WriteRefusal>
    ensures answer { reply (λ n. n) write_refusal result ≡ write_answer (draft_of draft.now) buffer.old }
    ensures after { buffer.new ≡ write_after (draft_of draft.now) buffer.old }
    ensures within { IfOk result (λ n. n ≤ length buffer.old) }
    ensures reads_back { ReadsBack (draft_of draft.now) }
    ensures room { LONGEST_TABLE ≤ length buffer.old → IsOk result }
{
    let table = TableText::new(draft);
    let text = table.bytes.as_slice();
    if text.len() > buffer.len() {
        return Err(WriteRefusal::ShortBuffer);
    }
    buffer[..text.len()].copy_from_slice(text);
    Ok(text.len())
}
