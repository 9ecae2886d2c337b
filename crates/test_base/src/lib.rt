// Tests of the ground: a list whose changes are undone, called as a search calls it; divisors and quotients at worked values
// and at both ends of the range; and charges at the edges of a budget.
#![tactic(auto)]

mod caller;
#[cfg(test)]
mod numbers;
#[cfg(test)]
mod purses;
#[cfg(test)]
mod tests;

pub use caller::{holds, place_of, there_and_back};
