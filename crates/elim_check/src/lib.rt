// Logs of eliminations, checked: each rule that a log names is performed again, where it applies. Nothing here chooses a
// rule, and this crate stands on none that does.
#![tactic(auto)]

mod applying;
mod checks;
mod fault;
mod forms;
mod laws;
mod names;
mod performing;
mod replay;
mod todo;

pub use checks::{check_all, check_exists, check_forall, check_log};
pub use fault::LogFault;
pub use laws::{answer_law, run_law};
