// Typing: what the names of a problem file stand for, which of its expressions are formulas and which are terms, and the
// problem that a file poses; or the first of its faults.
#![tactic(auto)]

mod applications;
mod build;
mod collect;
mod constant_terms;
mod cuts;
mod declaration;
mod faults;
mod laws;
mod parts;
mod problem;
mod refusals;
mod resolution;
mod scope;
mod sorts;
mod symbols;

pub use constant_terms::resolve_term;
pub use laws::{
    components_law, cuts_law, existentials_law, holds_law, least_law, limits_law, names_law,
    place_order_law, purity_law, says_law, well_formed_law,
};
pub use problem::{Cut, Problem, Symbol, TypeRefusal};
pub use resolution::resolve;
pub use symbols::{copy_symbols, copy_texts};
