// Proofs from anywhere, checked: this crate stands on no search and on no solver.
#![tactic(auto)]

mod checking;
mod conclusion;
mod constraints;
mod course;
mod frames;
mod laws;
mod leaving;
mod nodes;
mod reading;
mod same;
mod text;
mod tree;
mod walk;

pub use checking::{CheckFault, Checked, check_lines};
pub use laws::{accept_law, checked_law};
pub use text::{TextFault, check_text};
pub use tree::check;
