// The words of the command line, and the job that they name.
#![tactic(auto)]

mod commands;
mod jobs;
mod numbers;
mod words;

pub use jobs::{Job, WordsFault};
pub use words::{job, words_law};
