// S-expressions, which are atoms and lists, each with the place where it begins; and a script as the lists that it is made of,
// before its commands are told apart; and where its text may be cut in two.
#![tactic(auto)]

mod atoms;
mod cuts;
mod laws;
mod reading;
mod refusal;
mod tree;

pub use cuts::last_cut;
pub use laws::one_script_law;
pub use reading::lists;
pub use refusal::ReadRefusal;
pub use tree::{Atom, AtomKind, Sexp};
