// The dialogue `smt -`: each command of a script is answered as soon as it is read, by the answer to the script of the commands in force
// and this one.
#![tactic(auto)]

mod conversing;
mod dialogue;
mod errors;
mod judging;
mod kinds;
mod laws;
mod levels;
mod pieces;
mod spots;
mod stops;
mod talks;

pub use conversing::converse;
pub use dialogue::{Dialogue, Reply};
pub use laws::{begun_law, check_law, pieces_law};
