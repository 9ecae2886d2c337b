// Fractions of integers of 128 bits, checked.
#![tactic(auto)]

mod ratio;

pub use ratio::Ratio;
