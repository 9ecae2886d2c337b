// Definitions and laws on the integers that the crates above cite: order, divisibility, residues, lists of integers.
// Each law is proved once, in proofs/, and stated by a function with an empty body.
#![tactic(auto)]

mod arithmetic;
mod divisibility;
mod lists;
mod rounding;

pub use arithmetic::{order_law, ring_law};
pub use divisibility::{congruence_law, coprime_law, divides_law, gcd_law, gcd_sum_law};
pub use lists::{append_law, entry_law, put_law};
pub use rounding::{floor_law, next_law, residue_law};
