// What the prover reads from and writes to: sources of named bytes and sinks, over memory for tests and over the system
// for the program. Each counts its faults, so that an answer which blames the outside can be held to that count.
#![tactic(auto)]

mod file_source;
mod memory_sink;
mod memory_source;
mod names;
mod out_sink;
mod sink;
mod source;
mod whole;

pub use file_source::{FileSource, read_some};
pub use memory_sink::MemorySink;
pub use memory_source::MemorySource;
pub use out_sink::OutSink;
pub use sink::Sink;
pub use source::{BeginFault, Failed, Source};
pub use whole::{ReadFault, read_all};
