// Sorted literals that are their own normal form, told by their neighbours and, of a few, by their opposites.

ghost use Rattle.clause_set.specs.Apart.{form_cmp, is_open, is_plain, leads_positive, leaves_open};
ghost use Rattle.std.specs.declared.cmp.Ordering.TheVariants.{Less};
ghost use Rattle.std.specs.List.{list_all};
ghost use Rattle.std.specs.List.Sorted.{IsStrictlySortedBy};
ghost use Rattle.std.specs.Prelude.{◌≡◌, ◌||◌, IsTrue, true};

use super::bounds::{are_opposite, opposite_of, same_pairs};
use super::literal::Literal;
use super::order::Ordered;
use linear_term::Term;

fn leads_positive(pairs: &[(u32, i128)]) -> bool
    ensures { result ≡ leads_positive pairs.now }
{
    let Some((first, _)) = pairs.split_first() else {
        return false;
    };
    0 < first.1
}

/// Whether the literal is no equation, and has a positive first coefficient where it is a bound.
fn is_plain(l: &Literal) -> bool
    ensures { result ≡ is_plain l.now }
{
    match l {
        Literal::Eq(_) => false,
        Literal::Geq(t) => leads_positive(t.pairs()),
        Literal::Div(_, _) => true,
        Literal::NDiv(_, _) => true,
    }
}

/// Whether the bound s ≥ 0 comes before m, which does not bound the same linear form.
fn bound_precedes(s: &Term, m: &Literal) -> bool
    ensures { IsTrue result → form_cmp (Literal.Geq s.now) m.now ≡ Less }
{
    match m {
        Literal::Eq(_) => false,
        Literal::Geq(t) => s.pairs().cmp(&t.pairs()).is_lt(),
        Literal::Div(_, _) => true,
        Literal::NDiv(_, _) => true,
    }
}

/// Whether the equation s = 0 comes before m, which is no equation of the same linear form.
fn equation_precedes(s: &Term, m: &Literal) -> bool
    ensures { IsTrue result → form_cmp (Literal.Eq s.now) m.now ≡ Less }
{
    match m {
        Literal::Eq(t) => s.pairs().cmp(&t.pairs()).is_lt(),
        Literal::Geq(_) => true,
        Literal::Div(_, _) => true,
        Literal::NDiv(_, _) => true,
    }
}

/// Whether l comes before m, and both are not equations, nor bounds, of the same linear form.
fn precedes(l: &Literal, m: &Literal) -> bool
    ensures { IsTrue result → form_cmp l.now m.now ≡ Less }
{
    match l {
        Literal::Eq(s) => equation_precedes(s, m),
        Literal::Geq(s) => bound_precedes(s, m),
        Literal::Div(_, _) => l.compare(m).is_lt(),
        Literal::NDiv(_, _) => l.compare(m).is_lt(),
    }
}

/// Whether the literals rise by their forms: no form has two equations or two bounds.
pub(crate) fn rise(ls: &[Literal]) -> bool
    ensures { IsTrue result → IsStrictlySortedBy form_cmp ls.now }
{
    let mut left = ls;
    while let Some((l, more)) = left.split_first() {
        let Some((m, _)) = more.split_first() else {
            return true;
        };
        if !precedes(l, m) {
            return false;
        }
        left = more;
    }
    true
}

#[tactic(auto, using(crate::proofs::Walks::walks))]
fn all_plain(ls: &[Literal]) -> bool
    ensures { result ≡ list_all is_plain ls.now }
{
    for l in ls {
        if !is_plain(l) {
            return false;
        }
    }
    true
}

/// Whether the literal leaves more than one value where it bounds the opposite of t ≥ 0, and is no equation of its form.
#[tactic(auto, using(crate::proofs::Terms::terms))]
fn leaves_open(t: &Term, l: &Literal) -> bool
    ensures { result ≡ leaves_open t.now l.now }
{
    t.know_normal();
    match l {
        Literal::Eq(s) => {
            !same_pairs(s.pairs(), t.pairs()) && !are_opposite(s.pairs(), t.pairs())
        }
        Literal::Geq(s) => {
            !are_opposite(s.pairs(), t.pairs()) || opposite_of(s.constant()) < t.constant()
        }
        Literal::Div(_, _) => true,
        Literal::NDiv(_, _) => true,
    }
}

/// Whether all literals leave the bound t ≥ 0 more than one value.
#[tactic(auto, using(crate::proofs::Walks::walks))]
pub(crate) fn all_leave_open(t: &Term, ls: &[Literal]) -> bool
    ensures { result ≡ list_all (leaves_open t.now) ls.now }
{
    for l in ls {
        if !leaves_open(t, l) {
            return false;
        }
    }
    true
}

fn is_open(ls: &[Literal], l: &Literal) -> bool
    ensures { result ≡ is_open ls.now l.now }
{
    match l {
        Literal::Eq(t) => leads_positive(t.pairs()),
        Literal::Geq(t) => all_leave_open(t, ls),
        Literal::Div(_, _) => true,
        Literal::NDiv(_, _) => true,
    }
}

#[tactic(auto, using(crate::proofs::Walks::walks))]
fn all_open(ls: &[Literal]) -> bool
    ensures { result ≡ list_all (is_open ls.now) ls.now }
{
    for l in ls {
        if !is_open(ls, l) {
            return false;
        }
    }
    true
}

/// Up to this many literals each one is compared with each other one.
const FEW: usize = 32;

/// Whether none of the literals meets what another one bounds, so that they are their own normal form where they rise. Of
/// more than a few literals it is told only where none is an equation, and no bound has a negative first coefficient.
pub(crate) fn are_open(ls: &[Literal]) -> bool
    ensures { IsTrue result → (list_all is_plain ls.now || list_all (is_open ls.now) ls.now) ≡ true }
{
    all_plain(ls) || (ls.len() <= FEW && all_open(ls))
}
