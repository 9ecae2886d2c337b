// Answers: an exit status and a text, and the forms of a proof after it. How their lines are made, and how they are put to a sink.
#![tactic(auto)]

mod form;
mod lines;
mod output;
mod puts;
pub mod status;

pub use form::ProofForm;
pub use lines::{refused, refused_at, refused_proof, say, unknown};
pub use output::Output;
pub use puts::{put_all, put_answer};
