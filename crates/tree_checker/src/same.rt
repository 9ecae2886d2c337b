// Constraints compared, literal by literal in order: one in form with one that a stranger wrote.

ghost use Rattle.clause_set.specs.Dnfs.{top};
ghost use Rattle.clause_set.specs.Order.{clause_cmp};
ghost use Rattle.proof_tree.specs.Walk.{is_same};
ghost use Rattle.std.specs.Ordering.{is_eq};
ghost use Rattle.std.specs.Prelude.{◌≡◌, []};

use clause_set::{Clause, Dnf, Literal, Ordered};
use sqlite_items::Items;
use std::cmp::Ordering;

/// Whether these are the same literals.
fn same_literals(c: &[Literal], d: &[Literal]) -> bool
    ensures { result ≡ is_eq (clause_cmp c.now d.now) }
{
    let (mut xs, mut ys) = (c, d);
    while let Some((x, more)) = xs.split_first() {
        let Some((y, rest)) = ys.split_first() else {
            return false;
        };
        match x.compare(y) {
            Ordering::Less => return false,
            Ordering::Greater => return false,
            Ordering::Equal => {}
        }
        xs = more;
        ys = rest;
    }
    ys.is_empty()
}

/// Whether these are the same clauses.
pub fn is_same(made: &[Clause], given: &[Items<Literal>]) -> bool
    ensures { result ≡ is_same made.now given.now }
{
    let (mut xs, mut ys) = (made, given);
    while let Some((x, more)) = xs.split_first() {
        let Some((y, rest)) = ys.split_first() else {
            return false;
        };
        if !same_literals(x.literals(), y.as_slice()) {
            return false;
        }
        xs = more;
        ys = rest;
    }
    ys.is_empty()
}

/// Whether the constraint is true, as a clause without literals.
#[tactic(auto, using(crate::proofs::Trues::top_same))]
pub fn is_top(d: &Dnf) -> bool
    ensures { result ≡ is_same d.now top }
{
    d.is_top()
}

/// Whether the constraint is false: no clause.
pub fn is_bottom(d: &Dnf) -> bool
    ensures { result ≡ is_same d.now [] }
{
    match d.clauses().split_first() {
        None => true,
        Some(_) => false,
    }
}
