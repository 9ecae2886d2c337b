// What terms say, with their names resolved. Contracts see bodies as the trees of `specs/Body.antt`.

use smt_terms::Operator;
use sqlite_items::{Boxed, Items};

/// What needs no room.
#[derive(Clone, Copy)]
pub enum Leaf {
    /// A number.
    Number(i128),
    /// `true` or `false`.
    Truth(bool),
    /// An Int constant, by its number.
    Constant(u32),
    /// A bound name. Those of a defined function come first, from 0 on, then what `let` and quantifiers bind, each after those
    /// around it.
    Slot(u32),
}

/// What a term says.
#[cycle(body)]
#[derive(Drop)]
pub enum Body {
    Leaf(Leaf),
    Operated(Operator, Items<Body>),
    /// A function at its arguments, by its number.
    Function(u32, Items<Body>),
    /// A predicate, by its number.
    Predicate(u32, Items<Body>),
    /// A defined function, by its number.
    Defined(u32, Items<Body>),
    /// Each of these is bound, in order, and may use those before it; then what is said with all of them.
    Let(Items<Body>, Boxed<Body>),
    /// A quantifier over this many names, true for `forall`.
    Quantified(bool, u32, Boxed<Body>),
}
