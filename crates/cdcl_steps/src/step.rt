// Steps. Lists of them lie in the log.

use cdcl_forms::{List, Lit, Term};

/// A part of a list in the log.
#[derive(Clone, Copy)]
pub struct Stretch {
    pub start: usize,
    pub end: usize,
}

/// What made clauses, constants or applications. The variables of closures and the literals of members are those of the
/// search; so are the numbers of clauses.
#[derive(Clone, Copy)]
pub enum Step {
    /// The root is false: this literal of it is.
    Root(Lit),
    /// A false conjunction, with the literals of its members.
    OpenAnd(u32, Stretch),
    /// A false disjunction: a clause for each member.
    OpenOr(u32, Stretch),
    /// A false for-all: its body at a new constant.
    OpenForall(u32, Lit),
    /// The application with this number.
    Apply(u32),
    /// What is left of a closure that reads applications.
    Read(u32, Stretch, Lit),
    /// The body of a for-some at terms.
    Instance(u32, List, Lit),
    /// An equation, t at least 1, or -t at least 1.
    Split(Lit, Lit, Lit),
    /// Literals with multipliers, whose falsities add up to an absurdity.
    Sum(Stretch),
    /// Two applications, the equations of their arguments, and that of their values.
    Pair(u32, u32, Stretch, Lit),
    /// Two variables of one predicate, and the equations of their arguments.
    PredicatePair(u32, u32, Stretch),
    /// A new constant, the quotient of a term by a number: what is left is at least 0, and below the number.
    Divide(i128, Term, Lit, Lit),
    /// A clause, and the clauses that unit propagation goes through.
    Learnt(Stretch, Stretch),
}
