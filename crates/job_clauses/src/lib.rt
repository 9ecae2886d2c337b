// What the clause search finds of a problem, judged: a proof that the check of proofs accepts, or a model in which an evaluator finds the
// formula false.
#![tactic(auto)]

mod judging;
mod laws;

pub use judging::{Judged, search_briefly, search_judged};
pub use laws::proof_law;
