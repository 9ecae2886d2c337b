// The root of a clause proof, prepared: elimination takes the quantifiers out of its pure parts, and what it makes of them
// stands there as a formula again.
#![tactic(auto)]

mod attempt;
mod clausal;
mod preparing;
mod scoped;

pub use preparing::prepare;
pub use scoped::prepare_scoped;
