// The lines in which `solve` answers the `\interpolant` blocks of a problem, and what they mean; and what stands between the
// two sides of a cut of a problem with predicates and functions, with the trees that the canonical search finds of both
// obligations.
#![tactic(auto)]

mod laws;
mod lines;
mod middles;
mod plainly;
mod proved;
mod telling;

pub use laws::{lines_law, meaning_law};
pub use lines::interpolant_lines;
pub use middles::middle;
pub use proved::{Middle, Proved};
