// A doubly linked list whose changes are undone in reverse order without memory (Knuth, Dancing links, 2000): an item that is
// unlinked keeps its own links, and by them it goes back to its place.
#![tactic(auto)]

mod boxes;
mod laws;
mod list;
mod log;
mod loose;

pub use boxes::Pos;
pub use laws::history_law;
pub use list::BackList;
