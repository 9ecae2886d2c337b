// Finite models with defaults: for each function and predicate rows, of which the first that fits counts, and what it is
// elsewhere. The product's tables are those whose defaults are 0 and false.
#![tactic(auto)]

mod laws;
mod model;

pub use laws::model_law;
pub use model::{FunctionModel, Model, PredicateModel, TruthEntry, ValueEntry};
