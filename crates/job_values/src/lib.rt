// Values of the universal constants at which the formula of a problem without existential constants, predicates and functions is
// false: those that the canonical run finds of the negated problem.
#![tactic(auto)]

mod denying;
mod laws;
mod values;

pub use laws::{found_law, run_law, values_law};
pub use values::{false_values, run_values};
