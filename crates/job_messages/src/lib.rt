// The messages of the program: the lines of standard error that say where a file or a proof is refused and why, what ended a
// search, and what is wrong with words. They are made after the answer, from what is known then.
#![tactic(auto)]

mod assumptions;
mod interpolants;
mod named;
mod proofs;
mod quantifiers;
mod refusals;
mod report;
mod run_sentences;
mod stages;
mod unknowns;
mod warnings;
mod words;

pub use assumptions::{Assumptions, Vacuity, find_assumptions};
pub use message_lines::{Message, Place, Severity, lines};
pub use named::{NamedAssertion, is_unused, named_assertions, without};
pub use report::{Run, Unread, failed_output, notes, unread_words};
pub use stages::{progress_line, stats};
