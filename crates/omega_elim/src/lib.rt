// Elimination of a name that only inequalities bound (Pugh 1992, the Omega test): one-sided, exact shadow, and dark
// shadow with splinters.
#![tactic(auto)]

mod bounded;

pub use bounded::{first_bounds_law, is_bounded, project};
