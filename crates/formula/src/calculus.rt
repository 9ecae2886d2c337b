// The formulas of the calculus. Contracts see them as the trees of `specs/Form.antt`, on which truth is defined.

use crate::shared::Shared;
use linear_term::Term;
use sqlite_items::Items;

/// A formula in negation normal form over linear terms, predicates and the graphs of functions (Rümmer, A constraint
/// sequent calculus for first-order logic with linear integer arithmetic, 2008). A name is a number; in a formula over n
/// names a quantifier binds the name n, and its body is over n + 1.
#[derive(Drop)]
pub enum Core {
    /// The term is 0.
    Eq(Term),
    /// The term is not 0.
    Neq(Term),
    /// The term is at least 0.
    Geq(Term),
    /// The predicate with this number holds at the terms.
    Pred(u32, Items<Term>),
    /// It does not.
    NotPred(u32, Items<Term>),
    /// The function with this number has at the terms another value than the last term.
    NotFun(u32, Items<Term>, Term),
    /// All members are true; none is there in the formula `true`.
    And(Items<Core>),
    /// Some member is true; none is there in the formula `false`.
    Or(Items<Core>),
    Forall(Shared<Core>),
    Exists(Shared<Core>),
}
