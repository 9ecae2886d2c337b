// A file that holds a proof, read line by line, with no tree and no list of tokens in memory; the lines of a proof as a checker
// takes them, from a text or from a tree; and the tree that is built of lines.
#![tactic(auto)]

mod file;
mod laws;
mod reading;
mod refusal;
mod source;
mod steps;
mod stream;

pub use file::body;
pub use laws::{holds_one_law, one_refusal_law, own_law, refused_law};
pub use reading::read_tree;
pub use refusal::ProofRefusal;
pub use source::{Line, ProofLines};
pub use stream::Lines;
