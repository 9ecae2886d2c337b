// Bounds that the literals of another clause leave no value.

ghost use Rattle.clause_set.specs.Contrary.{excludes, is_excluded};
ghost use Rattle.std.specs.List.{list_any};
ghost use Rattle.std.specs.Prelude.{◌≡◌};

use super::bounds::{are_opposite, opposite_of, same_pairs};
use super::literal::Literal;
use linear_term::Term;

/// Whether the bound s ≥ 0 leaves no value where t ≥ 0 holds. The constants are asked first, in which most bounds differ.
#[tactic(auto, using(crate::proofs::Excluding::exclusions, crate::proofs::Terms::terms))]
fn bound_excludes(t: &Term, s: &Term) -> bool
    ensures { result ≡ excludes t.now (Literal.Geq s.now) }
{
    t.know_normal();
    s.constant() < opposite_of(t.constant()) && are_opposite(s.pairs(), t.pairs())
}

/// Whether the equation s = 0 leaves no value where t ≥ 0 holds.
#[tactic(auto, using(crate::proofs::Excluding::exclusions, crate::proofs::Terms::terms))]
fn equation_excludes(t: &Term, s: &Term) -> bool
    ensures { result ≡ excludes t.now (Literal.Eq s.now) }
{
    t.know_normal();
    if are_opposite(s.pairs(), t.pairs()) {
        return s.constant() < opposite_of(t.constant());
    }
    t.constant() < s.constant() && same_pairs(s.pairs(), t.pairs())
}

/// Whether the literal leaves no value where t ≥ 0 holds.
fn excludes(t: &Term, l: &Literal) -> bool
    ensures { result ≡ excludes t.now l.now }
{
    match l {
        Literal::Eq(s) => equation_excludes(t, s),
        Literal::Geq(s) => bound_excludes(t, s),
        Literal::Div(_, _) => false,
        Literal::NDiv(_, _) => false,
    }
}

/// Whether one of the literals leaves no value where t ≥ 0 holds.
#[tactic(auto, using(crate::proofs::Walks::walks))]
fn any_excludes(t: &Term, ls: &[Literal]) -> bool
    ensures { result ≡ list_any (excludes t.now) ls.now }
{
    for l in ls {
        if excludes(t, l) {
            return true;
        }
    }
    false
}

fn is_excluded(ls: &[Literal], l: &Literal) -> bool
    ensures { result ≡ is_excluded ls.now l.now }
{
    match l {
        Literal::Eq(_) => false,
        Literal::Geq(t) => any_excludes(t, ls),
        Literal::Div(_, _) => false,
        Literal::NDiv(_, _) => false,
    }
}

/// Whether a bound of d is one that a literal of c leaves no value: then both are not true together.
#[tactic(auto, using(crate::proofs::Walks::walks))]
pub(crate) fn are_contrary(c: &[Literal], d: &[Literal]) -> bool
    ensures { result ≡ list_any (is_excluded c.now) d.now }
{
    for l in d {
        if is_excluded(c, l) {
            return true;
        }
    }
    false
}
