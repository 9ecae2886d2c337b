// What a run did, counted while it goes on.
#![tactic(auto)]

mod counter;
mod counts;

pub use counts::{Counts, RunCounts, Statistics};
