// A formula or a term of a problem, with every name resolved to its number. Contracts see them as the trees of
// `specs/Formula.antt`, on which truth is defined.

use sqlite_items::{Boxed, Items};

/// A relation between two integers.
#[derive(Clone, Copy, Debug, PartialEq, Eq)]
pub enum Relation {
    Eq,
    Neq,
    Lt,
    Leq,
    Gt,
    Geq,
}

/// The type of a constant or of a bound variable: which integers are its values. A `Range` of which the first bound is
/// above the second has no value.
#[derive(Clone, Copy, Debug, PartialEq, Eq)]
pub enum Sort {
    /// All integers.
    Int,
    /// From 0 on.
    Nat,
    /// From the first to the second, both included.
    Range(i128, i128),
}

/// A formula over the integers. `And` of nothing is true and `Or` of nothing is false. Under a quantifier the bound
/// variable is the name after those of the formula around it.
#[cycle(typed)]
#[derive(Drop)]
pub enum Typed {
    Truth(bool),
    Rel(Relation, TypedTerm, TypedTerm),
    /// A predicate, by its number, at its arguments.
    Pred(u32, Items<TypedTerm>),
    Not(Boxed<Typed>),
    And(Items<Typed>),
    Or(Items<Typed>),
    Implies(Boxed<Typed>, Boxed<Typed>),
    Iff(Boxed<Typed>, Boxed<Typed>),
    Forall(Sort, Boxed<Typed>),
    Exists(Sort, Boxed<Typed>),
    /// A formula that is the part of this number; it means what the formula means.
    Part(u32, Boxed<Typed>),
}

/// A term over the integers. `a - b` is a `Sum` of a and `Minus` of b.
#[cycle(typed)]
#[derive(Drop)]
pub enum TypedTerm {
    Number(i128),
    Name(u32),
    /// A function, by its number, at its arguments.
    Apply(u32, Items<TypedTerm>),
    Minus(Boxed<TypedTerm>),
    Sum(Items<TypedTerm>),
    Product(Boxed<TypedTerm>, Boxed<TypedTerm>),
    /// The second member where the first is true, else the third.
    If(Boxed<Typed>, Boxed<TypedTerm>, Boxed<TypedTerm>),
    Abs(Boxed<TypedTerm>),
    Min(Boxed<TypedTerm>, Boxed<TypedTerm>),
    Max(Boxed<TypedTerm>, Boxed<TypedTerm>),
}
