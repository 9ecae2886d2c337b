// The budget of a run, and the one way in which a contract says what a call charged and where it was cut; and lists with room for what a step makes.
#![tactic(auto)]

mod fault;
mod laws;
mod log;
mod purse;
mod room;

pub use fault::{ElimFault, StepFault};
pub use laws::{cut_law, followed_law};
pub use log::{ElimLog, Entry};
pub use purse::{Purse, Spent};
pub use room::room_for;
