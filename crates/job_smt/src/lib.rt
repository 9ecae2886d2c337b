// The job `smt`: the answers to the checks of a script, each by the canonical run on its problem or the clause search, up to the first
// refusal.
#![tactic(auto)]

mod answering;
mod check_laws;
mod checking;
mod laws;
mod lines;
mod models;
mod refusals;

pub use answering::answer;
pub use check_laws::answer_law;
pub use checking::{Cause, CheckAnswer, check};
pub use laws::{causes_law, meaning_law, one_answer_law};
