// A script of SMT-LIB from its bytes to its symbols, to what its commands come to, and to the problems of its checks, each of
// them well formed; or to its refusal.
#![tactic(auto)]

mod check_laws;
mod effects;
mod following;
mod forces;
mod forcing;
mod laws;
mod posing;
mod reading;
mod replies;
mod scripts;

pub use check_laws::{answers_law, checks_law, problem_law, refusal_law, sizes_law};
pub use effects::{Effect, Step, read_step};
pub use laws::one_law;
pub use posing::Script;
pub use reading::read;
pub use replies::Reply;
pub use scripts::script;
