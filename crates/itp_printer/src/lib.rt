// A formula over the symbols of a problem as a text of the problem's language, which is read back as a formula of the same
// truth in every interpretation.
#![tactic(auto)]

mod formulas;
mod laws;
mod nesting;
mod numbers;
mod pieces;
mod printing;
mod terms;

pub use laws::{plain_law, variable_law};
pub use printing::print_typed;
