// Numbers of 128 bits in a symmetric range, and linear terms over them: the number kernel of the prover.
#![tactic(auto)]

mod laws;
mod merge;
mod numbers;
mod range;
mod term;

pub use laws::{
    atoms_law, combination_is_normal_law, combination_law, monomial_law, names_law,
    raw_numbers_law, reduced_law, same_law, stays_law, term_order_law, unmentioned_law,
    without_law,
};
pub use numbers::{bezout, floor_div, gcd};
pub use range::{Memory, Place, TermFault, in_range};
pub use term::Term;
