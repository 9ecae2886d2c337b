// What stands between the two sides of a cut of a problem with predicates and functions, and the two obligations that say so,
// encoded: that it follows from the first side, and that it contradicts the second.
#![tactic(auto)]

mod closing;
mod copying;
mod fault;
mod laws;
mod making;
mod normal_form;
mod replaced;
mod sides;
mod symbols;

pub use fault::{MiddleFault, MiddleFormula, Obligations};
pub use laws::fault_law;
pub use making::obligations;
