// Finite models: tables with defaults out of a present model of the search, the truth of formulas in them, and the pure
// formulas that formulas are in them.
#![tactic(auto)]

mod deciding;
mod evaluating;
mod formulas;
mod pure;
mod rooted;
mod shrinking;
mod tables;

pub use deciding::{Decider, Solution, Undecided, plain};
pub use evaluating::Evaluator;
pub use pure::{Outside, Purifier};
pub use rooted::RootTruth;
pub use shrinking::{Judge, shrink};
pub use tables::{Defaults, FunctionTable, Model, PredicateTable};
