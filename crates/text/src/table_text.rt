// The text of a table while it is made.
#![tactic(auto, using(crate::proofs::Texts::added_twice))]

ghost use Rattle.std.specs.Prelude.{◌≡◌, ◌≤◌, [], map, length, decimal};
ghost use Rattle.std.specs.List.{flat_map};
ghost use Rattle.tasks.specs.Draft.{draft_of};
ghost use Rattle.tasks.specs.Staircase.{staircase_of};
ghost use Rattle.tasks.specs.Task.{task_of};
ghost use Rattle.text.specs.Views.{added, text_of};
ghost use Rattle.text.specs.Writing.{field_text, line_text, staircase_text, table_text};

use bounded::Bounded;
use tasks::{Draft, Staircase, Task};

// The bytes of the longest table that is written: eight lines of 41.
pub const LONGEST_TABLE: usize = 328;

// The bytes of a table's text, which lie in place. What finds no room is left out, and each table finds room. Not by `write!`, whose
// contract does not say when it fails.
#[derive(Drop)]
pub(crate) struct TableText {
    pub(crate) bytes: Bounded<u8, LONGEST_TABLE>,
}

impl TableText {
    // The text of the tasks of a draft.
    pub(crate) fn new(draft: &Draft) -> TableText
        ensures { text_of result ≡ table_text (draft_of draft.now) }
    {
        let mut text = TableText {
            bytes: Bounded::new(0),
        };
        for task in draft.tasks() {
            text.add_line(task);
        }
        text
    }

    // Adds these bytes behind those that are there.
    #[tactic(auto, unfolding(crate::specs::Views::added))]
    fn add_word(&mut self, word: &[u8])
        ensures { text_of self.new ≡ added (text_of self.old) word.now }
    {
        self.bytes.extend(word);
    }

    #[tactic(auto, using(crate::proofs::Texts::added_twice, std::proofs::lemmas::Fmt::decimal_step, std::proofs::lemmas::Fmt::decimal_digit))]
    fn add_decimal(&mut self, number: u64)
        ensures { text_of self.new ≡ added (text_of self.old) (decimal number) }
    {
        if number >= 10 {
            self.add_decimal(number / 10);
        }
        self.add_word(&[b'0' + (number % 10) as u8]);
    }

    fn add_field(&mut self, separator: u8, number: u64)
        ensures { text_of self.new ≡ added (text_of self.old) (field_text separator number) }
    {
        self.add_word(&[separator]);
        self.add_decimal(number);
    }

    fn add_staircase(&mut self, staircase: &Staircase)
        ensures { text_of self.new ≡ added (text_of self.old) (staircase_text (staircase_of staircase.now)) }
    {
        self.add_field(b' ', staircase.burst);
        self.add_field(b'/', staircase.step);
    }

    #[tactic(auto, using(crate::proofs::Texts::added_none))]
    fn add_staircases(&mut self, staircases: &[Staircase])
        ensures { text_of self.new ≡ added (text_of self.old) (flat_map staircase_text (map staircase_of staircases.now)) }
    {
        for staircase in staircases {
            self.add_staircase(staircase);
        }
    }

    #[tactic(auto, unfolding(crate::specs::Writing::line_text), using(crate::proofs::Texts::added_twice, std::proofs::Common::append_assoc))]
    fn add_line(&mut self, task: &Task)
        ensures { text_of self.new ≡ added (text_of self.old) (line_text (task_of task.now)) }
    {
        self.add_word(b"task");
        self.add_field(b' ', task.limit);
        self.add_field(b' ', task.deadline);
        self.add_staircases(task.staircases.as_slice());
        self.add_word(b"\n");
    }
}
