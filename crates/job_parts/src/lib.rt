// The canonical run on a problem within a part of its budget: how long the part is, and that a run which ends there ends the same with
// the whole budget.
#![tactic(auto)]

mod laws;
mod part;

pub use laws::raised_law;
pub use part::{first_part, longer_part, with_budget};
