// Whether a formula is false in a finite model at given integers: its expansion there, and the elimination of the quantifiers
// that are left.
#![tactic(auto)]

mod deciding;
mod judging;

pub use deciding::decide;
pub use judging::is_false;
