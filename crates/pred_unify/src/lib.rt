// Pairs of members that close a sequent: a predicate that holds and fails at equal arguments, a function with two values
// at equal arguments. What closes a leaf is one formula without predicates and functions.
#![tactic(auto)]

mod laws;
mod leaf;
mod pairing;
mod symbols;

pub use laws::{closing_law, leaf_law, pure_law};
pub use leaf::{Leaf, Met};
pub use pairing::{closing_at, function_pair, predicate_pair};
