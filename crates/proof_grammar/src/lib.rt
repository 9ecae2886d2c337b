// The text of a proof: its lines, what it still owes after each of them, and where it is refused.
#![tactic(auto)]

mod checking;
mod lines;
mod openings;
mod rows;
mod single_lines;
mod text;
mod walk;

pub use checking::check_text;
pub use lines::{Owed, TextLine};
pub use openings::Opening;
pub use rows::{OneWord, RowWord, row, row_word};
pub use single_lines::{end_line, log_line};
pub use text::{Fault, line_for};
pub use walk::{Open, Place, Walk};
