// The words of a line of text: numbers, integers and linear terms, each after a blank.
#![tactic(auto)]

mod laws;
mod numbers;
mod terms;
mod words;
mod writing;

pub use laws::spelling_law;
pub use numbers::{index, integer};
pub use terms::{Part, Sum, term};
pub use words::{blank_first, feed_first, joint, split_word};
pub use writing::{put_integer, put_number, put_term};
