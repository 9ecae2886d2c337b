// What is said of a refused problem's file: what is wrong at the place of its refusal, and which other errors it has.
#![tactic(auto)]

mod declarations;
mod declared;
mod faults;
mod further;
mod kinds;
mod meanings;
mod problem;
mod problem_refusals;
mod problem_sentences;
mod repairs;
mod syntax;
mod syntax_inside;

pub use declarations::has_existential;
pub use problem::{Problem, is_block, is_quantifier};
pub use problem_refusals::put_problem_refusal;
