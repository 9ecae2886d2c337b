// Notes of a run on standard error: a source and a sink that keep what a note needs of what goes through them, and the notes that
// are put once the answer is made. A note can change neither the answer nor the status: they are there before it.
#![tactic(auto)]

mod files;
mod front;
mod kept_sink;
mod kept_source;
mod memory;
mod put;
mod reporter;
mod second;
mod texts;

pub use files::{NamedFiles, SystemFiles};
pub use job_messages::{Message, NamedAssertion, Unread, Vacuity, is_unused};
pub use kept_sink::KeptSink;
pub use kept_source::KeptSource;
pub use memory::greatest_memory;
pub use put::{messages, named_file, put_messages, put_output_failed, put_stats, put_unread_words};
pub use reporter::{Lines, Reporter};
pub use second::{Nowhere, Second, SecondAnswers, named_in_script, run_without, second_question};
