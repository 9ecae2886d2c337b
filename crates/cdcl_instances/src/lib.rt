// Quantifiers by instances: which instances of the assumptions that hold for all integers a search is to make next, and
// whether its present model is one of them all.
#![tactic(auto)]

mod checking;
mod closures;
mod gathering;
mod guards;
mod naming;
mod rounds;

pub use checking::Verdict;
pub use closures::Closure;
pub use gathering::Candidate;
pub use rounds::{Outcome, Quantifiers};
