// The canonical search for a proof: on each branch the first rule that fits, round after round with a rising limit on the
// uses of gamma, until the constraint of a round's tree has a solution or no further round could change it. The code
// follows the definition charge by charge; the laws are the contracts of functions with nothing to do.
#![tactic(auto)]

mod constraint;
mod constraints;
mod course;
mod finishing;
mod judge;
mod laws;
mod run;
mod walk;

pub use judge::{Decided, Outcome};
pub use laws::{answer_law, canonical_law, closed_law, one_end_law, pure_law};
pub use run::{decide, prove};
