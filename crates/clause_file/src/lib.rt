// The check of a clause proof, the third format of proofs, from the bytes of its file to a verdict. The text is read and checked
// in one pass, line by line.
#![tactic(auto)]

mod checking;
mod fault;
mod format;
mod laws;
mod running;

pub use checking::check_clauses;
pub use fault::ClauseFault;
pub use format::is_clause_text;
pub use laws::{format_law, meaning_law, one_verdict_law, some_verdict_law};
