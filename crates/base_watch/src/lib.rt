// What is told of a run while it goes on, to whoever watches it. Nothing comes back, so no answer hangs on it.
#![tactic(auto)]

mod event;
mod walked;
mod watch;

pub use event::{Event, Instances, Progress, Stage};
pub use walked::Walked;
pub use watch::{Unwatched, Watch};
