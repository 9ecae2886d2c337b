// The responses to `get-model` and `get-value`: the definitions that a finite model gives to the symbols of a check, and the values of
// those without parameters (SMT-LIB 2.6, section 4.2.7).
#![tactic(auto)]

mod laws;
mod models;
mod symbols;
mod tables;
mod terms;
mod values;

pub use laws::{definitions_law, values_law};
pub use models::model_text;
pub use values::{Value, put_values_of, symbol_values};
