// Whoever watches a run.

use crate::event::Event;

/// Whoever watches a run.
pub trait Watch {
    /// Something happened.
    fn tell(&mut self, event: Event);
}

/// Nobody.
#[derive(Clone, Copy, Debug)]
pub struct Unwatched;

impl Watch for Unwatched {
    fn tell(&mut self, _event: Event) {}
}
