// Miniscoping: quantifiers moved inwards, so that each binds the members alone that have its name (Nonnengart and
// Weidenbach, Computing small clause normal forms, 2001). What that is, the law that it keeps the truth, and the code.
#![tactic(auto)]

mod below;
mod finding;
mod freeing;
mod laws;
mod moving;

pub use below::scoped_below;
pub use laws::miniscope_law;
pub use moving::miniscoped;
