// Names for applications: a function at arguments without bound names has one value, and a name for it, put before a
// quantified formula, takes the function out of that formula.
#![tactic(auto)]

mod finding;
mod laws;
mod renaming;

pub use finding::{application, is_pure_but};
pub use laws::naming_law;
pub use renaming::{reading, renamed};
