// What the clause search finds of the existential constants of a problem, judged: values, with a clause proof that the problem holds
// there; or, without predicates and functions, that it holds nowhere, by a clause proof of its denial.
#![tactic(auto)]

mod closing;
mod denying;
mod laws;
mod models;
mod over;
mod searching;

pub use denying::search_nowhere;
pub use laws::values_law;
pub use searching::{Sought, search_values};
