// Pure formulas decided by elimination of quantifiers, for the model checking of assumptions.
#![tactic(auto)]

mod solving;

pub use solving::Elimination;
