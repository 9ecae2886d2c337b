// The lines of a clause proof.

use linear_term::Term;
use sqlite_items::Items;

/// A variable, by its number, that is true, or that is false.
#[derive(Clone, Copy, PartialEq, Eq)]
pub struct Literal {
    pub variable: u32,
    pub positive: bool,
}

/// A literal of a sum, and what its fact is multiplied by.
#[derive(Clone, Copy)]
pub struct Factor {
    pub literal: Literal,
    pub by: i128,
}

/// A constant that is the value of a function at terms.
#[derive(Drop)]
pub struct Application {
    pub function: u32,
    pub terms: Items<Term>,
    pub constant: u32,
}

/// A line of a proof. Constants, variables, applications and clauses are known by their numbers, in the order in which they
/// were made. Where a line has a literal for what it makes, its variable is a known one that says the same, or the next new one.
#[derive(Drop)]
pub enum Line {
    /// The members of a conjunction or a disjunction, or the body of a for-all at a new constant.
    Open(u32, Items<Literal>),
    /// A new constant, the value of a function at terms.
    Apply(u32, Items<Term>),
    /// What is left of a for-all that reads these applications.
    Read(u32, Items<u32>, Literal),
    /// The body of a for-some, as deep as there are terms, at these.
    Instance(u32, Items<Term>, Literal),
    /// A new variable: t >= 0.
    Inequality(Term),
    /// A new variable: t = 0.
    Equation(Term),
    /// A new variable: the predicate holds at the terms.
    Predicate(u32, Items<Term>),
    /// For the variable t = 0: t = 0 or t - 1 >= 0 or -t - 1 >= 0.
    Split(u32, Literal, Literal),
    /// One of these literals is true, since their falsities have a linear combination that is absurd.
    Sum(Items<Factor>),
    /// Two applications of one function: where the arguments are equal, so are the constants.
    Pair(u32, u32, Items<Literal>, Literal),
    /// Two variables of one predicate: where the arguments are equal, the first implies the second.
    PredicatePair(u32, u32, Items<Literal>),
    /// A new constant, the quotient of the term by the number, rounded down.
    Divide(i128, Term, Literal, Literal),
    /// A clause that follows from earlier ones by unit propagation along these.
    Resolve(Items<Literal>, Items<u32>),
    /// These clauses are no longer used.
    Delete(Items<u32>),
}
