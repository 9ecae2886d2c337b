// The proofs that a search finds prove what the search answers, and a text can hold them.
#![tactic(auto)]

mod laws;
mod printable;

pub use laws::{outcome_law, proved_law};
pub use printable::{shaped_law, shaped_outcome_law, tree_law};
