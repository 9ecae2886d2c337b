// What `solve` answers to a problem's file, and `drill` to a problem that the program makes: by the canonical run, or, where that
// leaves the problem open, by the clause search, whose proofs and models are judged before anything is told.
#![tactic(auto)]

mod clauses;
mod deciding;
mod drilling;
mod laws;
mod models;
mod shown;

pub use deciding::answer;
pub use drilling::drilled;
pub use laws::{calculus_law, causes_law, meaning_law};
