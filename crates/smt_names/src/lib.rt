// Terms of SMT-LIB with their names resolved to numbers, `let` and calls of defined functions shortened.
#![tactic(auto)]

mod binding;
mod body;
mod known;
mod operation;
mod resolving;
mod scope;
mod symbols;
mod uses;

pub use body::{Body, Leaf};
pub use known::{Declared, Known};
pub use symbols::{Meant, Symbols};
