// Where the work on an atom binds a name, makes two cases, or ends.

use crate::instruction::Instruction;
use formula::{Relation, Typed};
use linear_term::Term;
use sqlite_items::Items;

/// What decides between two cases.
#[derive(Drop)]
pub enum Test<'a> {
    Formula(&'a Typed),
    /// The first term stands in the relation to the second.
    Relation(Relation, Term, Term),
}

/// What comes after simple instructions.
#[derive(Drop)]
pub enum Stop<'a> {
    /// No instruction is left.
    Nothing,
    Related(Relation, Term, Term),
    /// A predicate, by its number, with plus (true) or minus, at these terms.
    Predicate(bool, u32, Items<Term>),
    /// A function, by its number, at the first terms, above a stack of the others.
    Graph(u32, Items<Term>, Items<Term>),
    /// A test, and the stack of each case; in the second the last term is negated first, or not.
    Cases(Test<'a>, Items<Term>, bool, Items<Term>),
}

/// A stop, and the instructions after it.
#[derive(Drop)]
pub struct Halt<'a> {
    pub stop: Stop<'a>,
    pub rest: &'a [Instruction<'a>],
}
