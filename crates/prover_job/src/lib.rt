// The top call of the prover: it does the job that its words name, over a source and a sink.
#![tactic(auto)]

mod laws;
mod runs;
mod tasks;

pub use job_words::{Job, WordsFault, job, words_law};
pub use laws::{accepted_law, found_law, output_law, printed_law};
pub use runs::run;
