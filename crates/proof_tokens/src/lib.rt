// The text of a proof: its tokens, and those of its lines that speak of no sequent.
#![tactic(auto)]

mod ahead;
mod laws;
mod lines;
mod numbers;
mod part_lines;
mod reading;
mod scanner;
mod single;
mod tokens;
mod words;
mod writing;

pub use ahead::{behind_bytes, name_ahead, number_ahead, true_ahead};
pub use laws::{
    charges_law, cutting_law, head_law, part_law, said_law, spelling_law, values_law, written_law,
};
pub use lines::{charges, head};
pub use numbers::{counted, position, values};
pub use part_lines::{SaidLog, part, parts, said};
pub use reading::{Refusal, next, next_word};
pub use scanner::{Piece, first_piece};
pub use single::{blank, line_feed, word};
pub use tokens::{Token, Word};
pub use writing::{
    put_entries, put_number, write_charges, write_head, write_log, write_log_use, write_none,
    write_none_use, write_parts,
};
