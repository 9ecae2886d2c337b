// The job `least`: what it answers to the bytes of a problem and a term, and what its answers mean. The term is read by the
// grammar of problem files, and computed from the inside where it has no calls, conditions, absolute values, minima and maxima.
#![tactic(auto)]

mod laws;
mod linear;
mod minimising;
mod objective;
mod plain;
mod plain_laws;
mod telling;
mod term_laws;
mod term_reading;

pub use laws::{causes_law, decided_law, meaning_law, one_answer_law};
pub use linear::linear_term;
pub use minimising::answer;
pub use plain::is_plain;
pub use plain_laws::plain_law;
pub use term_laws::{one_term_law, term_limits_law};
pub use term_reading::read_term;
