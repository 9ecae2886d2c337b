// The constraint that a node of a proof gives, as a line of the proof's text.
#![tactic(auto)]

mod draft;
mod laws;
mod machine;
mod names;
mod phrases;
mod place;
mod reading;
mod signs;

pub use laws::given_law;
pub use reading::{given, given_true};
