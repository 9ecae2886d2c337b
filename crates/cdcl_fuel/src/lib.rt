// What every part of the clause search shares: why it stops, the budget, access by a tested index, checked numbers.
#![tactic(auto)]

mod access;
mod fault;
mod numbers;

pub use access::{at, drop_at, near, near_mut, put, small, swap};
pub use fault::{Fault, Fuel};
pub use numbers::{add, floor_div, gcd, gcd_of_words, mac, mul, remainder, sub};
