// Where an answer goes whose proof has a file of its own.
#![tactic(auto)]

mod file_sink;
mod split_sink;

pub use file_sink::FileSink;
pub use split_sink::SplitSink;
