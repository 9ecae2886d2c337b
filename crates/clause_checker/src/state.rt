// What a proof has made so far, and what a line adds to it.

use clause_proof::{Application, Literal};
use formula::{Core, Shared};
use linear_term::Term;
use sqlite_items::Items;

/// What a variable stands for. A closure is a formula of the root, where it lies, with a term for each of its names.
#[derive(Drop)]
pub enum Definition<'a> {
    Always,
    AtLeastZero(Term),
    IsZero(Term),
    Predicate(u32, Items<Term>),
    Closure(&'a Core, Shared<Items<Term>>),
}

/// What a literal stands for: a definition, or its negation.
#[derive(Drop)]
pub(crate) struct Signed<'a> {
    pub(crate) definition: Definition<'a>,
    pub(crate) positive: bool,
}

/// What the variables stand for, clauses of which some are deleted, applications, and how many constants there are.
#[derive(Drop)]
pub struct State<'a> {
    pub definitions: Items<Definition<'a>>,
    pub clauses: Items<Option<Items<Literal>>>,
    pub applications: Items<Application>,
    pub count: u32,
}

/// What a line adds: what its literals stand for, clauses, applications, and how many constants there are then.
#[derive(Drop)]
pub(crate) struct Addition<'a> {
    pub(crate) meant: Items<Signed<'a>>,
    pub(crate) literals: Items<Literal>,
    pub(crate) clauses: Items<Option<Items<Literal>>>,
    pub(crate) applications: Items<Application>,
    pub(crate) count: u32,
}
