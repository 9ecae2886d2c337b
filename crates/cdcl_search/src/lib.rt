// The clause search: the loop of conflict-driven clause learning over closures of the root and canonical atoms of integers
// (Marques-Silva and Sakallah, GRASP: a search algorithm for propositional satisfiability, 1999; Moskewicz and others, Chaff:
// engineering an efficient SAT solver, 2001; Eén and Sörensson, An extensible SAT-solver, 2003), with an advisor for quantifiers.
#![tactic(auto)]

mod advisor;
mod answer;
mod deciding;
mod engine;
mod finish;
mod restart;
mod tally;

pub use advisor::{Advice, Advisor};
pub use answer::{Answer, Cause};
pub use engine::Search;
