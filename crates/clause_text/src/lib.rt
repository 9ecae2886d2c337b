// The text of clause proofs: the third format of proofs.
#![tactic(auto)]

mod charge;
mod head;
mod laws;
mod line_word;
mod line_words;
mod lines;
mod literals;
mod printing;

pub use charge::Charge;
pub use head::{Head, read_head};
pub use laws::{bytes_law, head_law, line_law, one_proof_law, refused_law};
pub use line_word::LineWord;
pub use lines::read_line;
pub use printing::print_line;
