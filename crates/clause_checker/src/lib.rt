// The checker of clause proofs. It takes a proof line by line, and accepts exactly what is one, unless it is cut by the budget,
// by the range of coefficients or by memory.
#![tactic(auto, using(crate::proofs::Causes::causes))]

mod canonical;
mod charging;
mod checking;
mod congruence;
mod fault;
mod formula_prices;
mod formulas;
mod line_prices;
mod opening;
mod pairing;
mod putting;
mod reading;
mod resolving;
mod standing;
mod state;
mod summing;

pub use checking::{begin, ends_empty, step};
pub use fault::Fault;
pub use state::{Definition, State};
