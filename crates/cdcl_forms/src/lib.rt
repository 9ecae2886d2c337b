// What the clause search speaks about: the root's formulas by number, interned linear terms, canonical atoms, and the
// variables, constants and applications that were made so far.
#![tactic(auto)]

mod atoms;
mod interner;
mod present;
mod terms;
mod tree;
mod vocabulary;

pub use atoms::{Definition, Fact, Signed};
pub use interner::{Interner, Letter};
pub use present::{Instance, Present};
pub use terms::{List, Monomial, Term, Terms};
pub use tree::{Info, Node, Span, Tree};
pub use vocabulary::{Application, Known, Lit, TRUE, Vocabulary, literal, negated, variable};
