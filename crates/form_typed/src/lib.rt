// Formulas of first-order integer arithmetic as typing makes them, and what they mean: interpretations of predicates
// and functions, the value of a term and the truth of a formula. The laws that a reader would check are the contracts
// of the functions of `laws`.
#![tactic(auto)]

mod copy;
mod laws;
mod typed;
mod world;

pub use laws::{
    conjunction_law, disjunction_law, implication_law, quantifier_law, relation_law, sort_law,
    stability_law, table_law, value_law,
};
pub use typed::{Relation, Sort, Typed, TypedTerm};
pub use world::{Table, TruthRow, ValueRow, World};
