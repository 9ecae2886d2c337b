// The text of a proof, written: what is written is read back as that proof.
#![tactic(auto)]

mod given;
mod knowing;
mod laws;
mod rows;
mod sharing;
mod text;

pub use knowing::know_typed;
pub use laws::{parts_law, text_law};
pub use text::{write_short, write_tree};
