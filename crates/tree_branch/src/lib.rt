// The branch where a search or a check stands: the members of its last node, kept in one list that goes back, so that a node
// copies no member; what a node is charged; and the constraints of premises put together.
#![tactic(auto)]

mod branch;
mod choosing;
mod entering;
mod finding;
mod leaf_charge;
mod pair_sizes;
mod premises;
mod principal;
mod principal_charge;

pub use branch::Branch;
pub use choosing::Passed;
pub use entering::Entered;
pub use leaf_charge::leaf_fee;
pub use premises::{conjoined, first};
pub use principal::Principal;
pub use principal_charge::principal_fee;
