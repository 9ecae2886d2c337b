// What is said of a refused script: what is wrong at the place of its refusal, and which other errors it has.
#![tactic(auto)]

mod script_commands;
mod script_further;
mod script_refusals;
mod script_sentences;
mod script_sorts;
mod scripts;

pub use script_refusals::put_script_refusal;
