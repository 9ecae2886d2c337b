// The best values of names that satisfy a disjunction of clauses, found name by name: the other names go out, the clauses
// that are left give candidates, and the one nearest to 0 stands for the name from then on.
#![tactic(auto)]

mod knowing;
mod numbers;
mod over;
mod roots;
mod single;
mod solving;
mod steps;
mod values;

pub use knowing::know_clauses;
pub use numbers::is_at_most;
pub use over::is_over;
pub use single::{at_root, lower, residue, upper};
pub use solving::{Solved, names_from, solve};
pub use steps::{equation_place, split};
