// How large the formulas of a script are: counted exactly, up to the limits of a script; and counted before they are written,
// from what each definition writes at arguments of any size, so that each part of a body is looked at once, however large what
// it becomes is.
#![tactic(auto)]

mod forms;
mod groups;
mod kinds;
mod laws;
mod linear;
mod operators;
mod pairs;
mod places;
mod size;
mod sizes;
mod walking;
mod weight;

pub use forms::Forms;
pub use laws::size_law;
pub use size::{NOTHING, ONE, Size, above, beside};
pub use sizes::size_of;
