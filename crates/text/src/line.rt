// The reader of one line.
ghost use Rattle.std.specs.Prelude.{◌≡◌, ◌≤◌, length};
ghost use Rattle.bounded.specs.List.{items};
ghost use Rattle.tasks.specs.Draft.{draft_of};
ghost use Rattle.tasks.specs.Reply.{reply};
ghost use Rattle.text.specs.Bytes.{place};
ghost use Rattle.text.specs.Fault.{cause_refusal, line_refusal};
ghost use Rattle.text.specs.Line.{line_entered, numbers, staircase, staircases};
ghost use Rattle.text.specs.Reading.{placed_at};
ghost use Rattle.text.specs.Views.{Reads, numbers_of};

use crate::cursor::Cursor;
use crate::fault::{At, LineCause, LineFault};
use crate::numbers::LineNumbers;
use bounded::Bounded;
use tasks::Draft;

// A burst and a step.
#[tactic(auto, unfolding(crate::specs::Line::staircase))]
fn read_staircase(cursor: &mut Cursor) -> Result<(u64, u64), LineCause>
    ensures { Reads (λ p left. (p, left)) staircase cursor.old cursor.new result }
{
    let Some(burst) = cursor.field(b' ')? else {
        return Err(cursor.unexpected());
    };
    let Some(step) = cursor.field(b'/')? else {
        return Err(cursor.unexpected());
    };
    Ok((burst, step))
}

// One to four staircases and the line feed.
#[tactic(auto, unfolding(crate::specs::Line::staircases))]
fn read_staircases(cursor: &mut Cursor) -> Result<Bounded<(u64, u64), 4>, LineCause>
    ensures { Reads (λ ps left. (items ps, left)) staircases cursor.old cursor.new result }
{
    let mut pairs = Bounded::new((0, 0));
    let _ = pairs.push(read_staircase(cursor)?);
    while pairs.as_slice().len() < 4 && cursor.sees(b' ') {
        let _ = pairs.push(read_staircase(cursor)?);
    }
    cursor.expect_byte(b'\n')?;
    Ok(pairs)
}

// The numbers of a whole line with its line feed, and the bytes behind it.
#[tactic(auto, unfolding(crate::specs::Line::numbers))]
fn read_numbers(bytes: &[u8]) -> Result<(LineNumbers, &[u8]), LineCause>
    ensures { reply (λ p. (numbers_of p.0, p.1.now)) cause_refusal result ≡ numbers bytes.now }
{
    let mut cursor = Cursor::new(bytes);
    cursor.word(b"task")?;
    let Some(limit) = cursor.field(b' ')? else {
        return Err(cursor.unexpected());
    };
    let Some(deadline) = cursor.field(b' ')? else {
        return Err(cursor.unexpected());
    };
    let staircases = read_staircases(&mut cursor)?;
    let numbers = LineNumbers {
        limit,
        deadline,
        staircases,
    };
    Ok((numbers, cursor.left()))
}

// Enters the task of the line that these bytes begin with, and answers the bytes behind that line.
#[tactic(auto, unfolding(crate::specs::Line::line_entered))]
fn enter_line<'a>(draft: &mut Draft, bytes: &'a [u8]) -> Result<&'a [u8], LineCause>
    ensures { reply (λ rest. (draft_of draft.new, rest.now)) cause_refusal result ≡ line_entered (draft_of draft.old) bytes.now }
{
    let (
        LineNumbers {
            limit,
            deadline,
            staircases,
        },
        rest,
    ) = read_numbers(bytes)?;
    draft.enter(limit, deadline, staircases.as_slice())?;
    Ok(rest)
}

// The same for the line that `rest`, the end of the text, begins with; a fault gets the place of the line. No cursor over the text: it
// would have to know that what is behind a line is the end of the text again.
pub(crate) fn enter_line_at<'a>(
    draft: &mut Draft,
    text: &[u8],
    rest: &'a [u8],
) -> Result<&'a [u8], LineFault>
    requires { length rest.now ≤ length text.now }
    ensures { reply (λ behind. (draft_of draft.new, behind.now)) line_refusal result ≡ placed_at (place text.now rest.now) (line_entered (draft_of draft.old) rest.now) }
{
    let place = text.len() - rest.len();
    let behind = enter_line(draft, rest).map_err(|fault| At { place, fault })?;
    Ok(behind)
}
