// Problem files: from their bytes to the problem that they pose and its encoding, or to why there is none, and how that is
// told.
#![tactic(auto)]

mod encoder;
mod fault;
mod laws;
mod reading;
mod refusals;

pub use encoder::{encode_problem, refuse_encoding};
pub use fault::FileFault;
pub use laws::{cuts_law, encoding_law, names_law, one_problem_law, problem_law};
pub use reading::read_problem;
pub use refusals::refuse;
