// The job `check`: what it answers to the bytes of a problem's file and of a proof's file, and what its answers mean.
#![tactic(auto)]

mod checking;
mod laws;
mod telling;

pub use checking::answer;
pub use laws::{causes_law, decided_law, meaning_law, one_answer_law, status_law};
