// The text form of a task table: `task`, limit, deadline and staircases on each line. The reader works on the caller's bytes, the
// writer into the caller's buffer, and each undoes the other.
#![tactic(auto)]

mod cursor;
mod fault;
mod line;
mod numbers;
mod reader;
mod scanning;
mod table_text;
#[cfg(test)]
mod tests;
mod words;
mod writer;

pub use fault::{LineCause, LineFault, NumeralFault, TableFault, WriteRefusal};
pub use reader::{LONGEST_TEXT, read_table};
pub use table_text::LONGEST_TABLE;
pub use writer::write_table;
