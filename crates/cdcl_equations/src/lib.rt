// Equations over the integers, solved by unimodular changes of names, each with the combination of given equations that it
// is (Knuth, The Art of Computer Programming, volume 2, section 4.5.2; Pugh, The Omega test, 1991).
#![tactic(auto)]

mod equation;
mod solution;

pub use equation::{Equation, Part};
pub use solution::Solution;
