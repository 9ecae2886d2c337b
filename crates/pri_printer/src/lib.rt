// The texts in which the program prints what it found about a problem: a constraint, the values of its constants, and the rows of
// a counterexample. The constraint is a formula of the problem's own language, and is read back as one that is true where it is.
#![tactic(auto)]

mod constraint;
mod counterexample;
mod laws;
mod literal;
mod quotient;
mod solution;
mod term;

pub use constraint::{know_clauses, print_dnf};
pub use counterexample::{print_counterexample, put_applied, put_constants, put_integer};
pub use laws::{constraint_law, quotient_law};
pub use quotient::is_taken;
pub use solution::print_solution;
