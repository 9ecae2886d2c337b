// The text of a counterexample in a finite model with defaults.
#![tactic(auto)]

mod models;

pub use models::print_model;
