// The terms of scripts: what S-expressions say as terms, and for what a term is refused; and the commands of a script taken in
// order, up to its first refusal.
#![tactic(auto)]

mod bound;
mod commands;
mod forms;
mod judging;
mod numerals;
mod operators;
mod reading;
mod terms;
mod typing;
mod uses;

pub use commands::{command_in, is_exit, walk};
pub use reading::read_term;
pub use terms::{Head, Terms};
pub use typing::{Typing, argument_variables};
