// Terms of SMT-LIB written out as the formulas and terms of a problem.
#![tactic(auto)]

mod combine;
mod layers;
mod nodes;
mod operators;
mod pairing;
mod places;
mod writing;
mod written;

pub use writing::write_formula;
