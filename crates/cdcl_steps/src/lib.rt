// The log of a search: a step for each clause that it made, and, where the last one is empty, the lines of a clause proof for
// those steps that it follows from.
#![tactic(auto)]

mod lines;
mod log;
mod needs;
mod step;

pub use lines::{Proof, write_proof};
pub use log::Log;
pub use step::{Step, Stretch};
