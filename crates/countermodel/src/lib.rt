// Counterexamples: a finite table and values of the universal constants that make a problem's formula false. A walk through the
// open tree of a saturated search finds them, from values of the constants of its root at which its constraint is false to a
// leaf.
#![tactic(auto)]

mod clauses;
mod evaluating;
mod explaining;
mod finding;
mod laws;
mod probing;
mod rows;
mod sorting;
mod walking;

pub use explaining::{Counterexample, explain};
pub use laws::probe_law;
pub use probing::probe;
pub use rows::table_at;
pub use walking::{Stop, walk};
