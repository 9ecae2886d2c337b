// The job `elim`: what it answers to the bytes of a problem's file, and what its answers mean.
#![tactic(auto)]

mod eliminating;
mod laws;

pub use eliminating::answer;
pub use laws::{causes_law, decided_law, meaning_law, one_answer_law};
