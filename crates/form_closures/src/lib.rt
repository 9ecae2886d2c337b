// Terms put for the names of a term, as a closure has them: a formula with a term for each of its names. What that is, and that it keeps
// values.
#![tactic(auto)]

mod laws;

pub use laws::put_law;
