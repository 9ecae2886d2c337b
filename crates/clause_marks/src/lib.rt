// A set of literals that is emptied at once: the false literals of a unit propagation.
#![tactic(auto)]

mod marks;

pub use marks::Marks;
