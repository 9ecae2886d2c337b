// The literals of a conjunction of two clauses.

ghost use Rattle.clause_set.specs.Clause.{IsClause};
ghost use Rattle.clause_set.specs.Clauses.{clause_of, compact};
ghost use Rattle.clause_set.specs.Tighter.{IsFirstLiteral, IsImpliedLiteral, IsPut, IsTighter};
ghost use Rattle.std.specs.Prelude.{◌≡◌, ◌+◌, ◌<◌, ◌≤ℤ◌, ◌++◌, [], IfNone, IfOk, IfSome, IsTrue, length, OnOk};

use super::bounds::same_pairs;
use super::compact::compact;
use super::contrary::are_contrary;
use super::literal::Literal;
use super::order::Ordered;
use base_budget::room_for;
use linear_term::{Memory, Term};
use sqlite_items::Items;
use std::alloc::Global;

/// Whether s ≥ 0 bounds the same coefficients as t ≥ 0, at least as tightly.
#[tactic(auto, using(crate::proofs::Merging::forms))]
fn is_tighter_bound(s: &Term, t: &Term) -> bool
    ensures form { IsTrue result → s.now.pairs ≡ t.now.pairs }
    ensures constant { IsTrue result → s.now.constant ≤ℤ t.now.constant }
{
    if s.constant() > t.constant() {
        return false;
    }
    if !same_pairs(s.pairs(), t.pairs()) {
        return false;
    }
    true
}

/// Whether the bound s ≥ 0 is as tight as m, and of the same coefficients.
fn bound_is_tighter(s: &Term, m: &Literal) -> bool
    ensures { IsTrue result → IsTighter (Literal.Geq s.now) m.now }
{
    match m {
        Literal::Eq(_) => false,
        Literal::Geq(t) => is_tighter_bound(s, t),
        Literal::Div(_, _) => false,
        Literal::NDiv(_, _) => false,
    }
}

/// Whether m need not stand beside l.
#[tactic(auto, using(crate::proofs::Merging::tighter))]
fn is_tighter(l: &Literal, m: &Literal) -> bool
    ensures { IsTrue result → IsTighter l.now m.now }
{
    match l {
        Literal::Eq(_) => l.compare(m).is_eq(),
        Literal::Geq(s) => bound_is_tighter(s, m),
        Literal::Div(_, _) => l.compare(m).is_eq(),
        Literal::NDiv(_, _) => l.compare(m).is_eq(),
    }
}

/// Whether l need not stand beside the last one of the literals.
#[tactic(auto, using(crate::proofs::Merging::held))]
fn is_held(ls: &[Literal], l: &Literal) -> bool
    ensures { IsTrue result → IsImpliedLiteral ls.now l.now }
{
    let Some((last, _)) = ls.split_last() else {
        return false;
    };
    is_tighter(last, l)
}

/// Puts a copy of l after the others, unless it need not stand beside the last one.
fn push_tighter(l: &Literal, out: &mut Items<Literal>) -> Result<(), Memory>
    ensures { OnOk result (IsPut out.old l.now out.new) }
{
    if is_held(out.as_slice(), l) {
        return Ok(());
    }
    out.push(l.copy()?)?;
    Ok(())
}

/// The lesser of the first literals of two lists, and what is after it in both.
fn first_of<'a>(
    left: &'a [Literal],
    right: &'a [Literal],
) -> Option<(&'a Literal, &'a [Literal], &'a [Literal])>
    ensures some { IfSome result (λ f. IsFirstLiteral left.now right.now f.0.now f.1.now f.2.now) }
    ensures shorter { IfSome result (λ f. length f.1.now + length f.2.now < length left.now + length right.now) }
    ensures left_none { IfNone result (left.now ≡ []) }
    ensures right_none { IfNone result (right.now ≡ []) }
{
    let Some((l, more)) = left.split_first() else {
        let (r, rest) = right.split_first()?;
        return Some((r, left, rest));
    };
    let Some((r, rest)) = right.split_first() else {
        return Some((l, more, right));
    };
    if r.compare(l).is_lt() {
        return Some((r, left, rest));
    }
    Some((l, more, right))
}

/// Copies of the literals of two sorted lists in their order, without bounds that are no tighter than the one before.
#[tactic(auto, using(crate::proofs::Merging::merging))]
fn merged(alloc: Global, c: &[Literal], d: &[Literal]) -> Result<Items<Literal>, Memory>
    ensures { IfOk result (λ out. compact out ≡ compact (c.now ++ d.now)) }
{
    let mut out = room_for(alloc, c.len().saturating_add(d.len()))?;
    let (mut left, mut right) = (c, d);
    while let Some((next, more, rest)) = first_of(left, right) {
        push_tighter(next, &mut out)?;
        left = more;
        right = rest;
    }
    Ok(out)
}

/// The literals of the conjunction of two clauses, which are in normal form; none where it is found to be false.
#[tactic(auto, using(crate::proofs::Merging::conjoining))]
pub(crate) fn conjoined(
    alloc: Global,
    c: &[Literal],
    d: &[Literal],
) -> Result<Option<Items<Literal>>, Memory>
    requires left { IsClause c.now }
    requires right { IsClause d.now }
    ensures { IfOk result (λ both. both ≡ clause_of (c.now ++ d.now)) }
{
    if are_contrary(c, d) {
        return Ok(None);
    }
    let literals = merged(alloc, c, d)?;
    let both = compact(alloc, literals)?;
    Ok(both)
}
