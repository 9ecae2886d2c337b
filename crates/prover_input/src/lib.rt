// Real files and the standard input as a source.
#![tactic(auto)]

mod system_source;

pub use system_source::SystemSource;
