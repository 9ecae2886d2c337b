// The job `solve` by the canonical run: what it answers to an encoded problem, and what its answers mean.
#![tactic(auto)]

mod laws;
mod proving;
mod refuting;
mod running;
mod solving;
mod telling;

pub use laws::{causes_law, decided_law, enough_law, headline_law, one_answer_law};
pub use running::{Course, run_within};
pub use solving::run_answer;
pub use telling::closed;
