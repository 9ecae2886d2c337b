// Which clause covers which, and the clauses that no other one covers.

ghost use Rattle.clause_set.specs.Clause.{IsClause, IsDnf};
ghost use Rattle.clause_set.specs.Dnfs.{covers, is_covered, is_implied, outdoes, tidied, uncovered};
ghost use Rattle.clause_set.specs.Implying.{implies, refutes};
ghost use Rattle.clause_set.specs.Keeping.{kept_by};
ghost use Rattle.clause_set.specs.Order.{is_literal};
ghost use Rattle.clause_set.specs.Thinning.{AreThinned, IsThin};
ghost use Rattle.std.specs.List.{list_all, list_any};
ghost use Rattle.std.specs.Prelude.{◌≡◌, ◌<◌, ◌≤◌, ◌++◌, [], ◌∷◌, cond, false, filter, IfNone, IfOk, IfSome, length, not, OnOk, reverse, true};

use super::bounds::{same_pairs, sets_bound};
use super::clause::Clause;
use super::literal::Literal;
use super::order::{Ordered, sort_once};
use base_budget::room_for;
use linear_term::{Memory, Term};
use sqlite_items::Items;
use std::alloc::Global;

/// Whether two literals are the same: terms of different lengths or constants are not compared further.
#[tactic(auto, using(crate::proofs::Opposites::literals_apart))]
fn is_same(l: &Literal, m: &Literal) -> bool
    ensures { result ≡ is_literal l.now m.now }
{
    let (s, t) = (l.term(), m.term());
    if s.len() != t.len() {
        return false;
    }
    if s.constant() != t.constant() {
        return false;
    }
    l.compare(m).is_eq()
}

/// Whether l follows from m alone.
fn implies(m: &Literal, l: &Literal) -> bool
    ensures { result ≡ implies l.now m.now }
{
    match l {
        Literal::Geq(t) => sets_bound(m, t),
        Literal::Eq(_) => is_same(l, m),
        Literal::Div(_, _) => is_same(l, m),
        Literal::NDiv(_, _) => is_same(l, m),
    }
}

/// What the bound s ≥ 0 of a clause says of whether t ≥ 0 follows from the clause: nothing, where it bounds another form.
fn bound_answers(s: &Term, t: &Term) -> Option<bool>
    ensures says { IfSome result (λ b. implies (Literal.Geq t.now) (Literal.Geq s.now) ≡ b) }
    ensures refutes { IfSome result (λ b. refutes (Literal.Geq t.now) (Literal.Geq s.now) ≡ not b) }
    ensures fails { IfNone result (implies (Literal.Geq t.now) (Literal.Geq s.now) ≡ false) }
    ensures stays { IfNone result (refutes (Literal.Geq t.now) (Literal.Geq s.now) ≡ false) }
{
    if !same_pairs(s.pairs(), t.pairs()) {
        return None;
    }
    Some(s.constant() <= t.constant())
}

/// What a literal m of a clause says of whether l follows from the clause: nothing, where it is neither l, nor a bound or an
/// equation of the same form.
fn answers(m: &Literal, l: &Literal) -> Option<bool>
    ensures says { IfSome result (λ b. implies l.now m.now ≡ b) }
    ensures refutes { IfSome result (λ b. refutes l.now m.now ≡ not b) }
    ensures fails { IfNone result (implies l.now m.now ≡ false) }
    ensures stays { IfNone result (refutes l.now m.now ≡ false) }
{
    match (m, l) {
        (Literal::Geq(s), Literal::Geq(t)) => bound_answers(s, t),
        _ => { if implies(m, l) { Some(true) } else { None } }
    }
}

/// The last literal that says whether l follows from the clause: its place, and what it says.
#[tactic(auto, using(crate::proofs::Implying::backwards))]
fn last_answer(ls: &[Literal], l: &Literal) -> Option<(usize, bool)>
    ensures yes { IfSome result (λ found. found.1 ≡ true → list_any (implies l.now) ls.now ≡ true) }
    ensures no { IfSome result (λ found. found.1 ≡ false → list_any (refutes l.now) ls.now ≡ true) }
    ensures within { IfSome result (λ found. found.0 < length ls.now) }
    ensures none { IfNone result (list_any (implies l.now) ls.now ≡ false) }
{
    let mut left = ls;
    while let Some((m, before)) = left.split_last() {
        if let Some(follows) = answers(m, l) {
            return Some((before.len(), follows));
        }
        left = before;
    }
    None
}

/// The place of a literal of the clause that l follows from. Those before `at` are asked first, the last one of them first.
#[tactic(auto, using(crate::proofs::Implying::halves))]
fn implying(c: &[Literal], at: usize, l: &Literal) -> Option<usize>
    requires clause { IsClause c.now }
    requires within { at ≤ length c.now }
    ensures found { IfSome result (λ place. is_implied c.now l.now ≡ true) }
    ensures within { IfSome result (λ place. place ≤ length c.now) }
    ensures none { IfNone result (is_implied c.now l.now ≡ false) }
{
    let (near, others) = c.split_at(at);
    if let Some((place, follows)) = last_answer(near, l) {
        return if follows { Some(place) } else { None };
    }
    let (place, follows) = last_answer(others, l)?;
    if follows { Some(at + place) } else { None }
}

/// Whether the clause d covers the clause c: each literal of d is in c, or follows from its bounds. The last ones, in
/// which sorted clauses differ most, are asked first, each of the literals of c before the one that was found last.
fn covers(d: &[Literal], c: &[Literal]) -> bool
    requires { IsClause c.now }
    ensures { result ≡ covers d.now c.now }
{
    let mut left = d;
    let mut at = c.len();
    while let Some((l, rest)) = left.split_last() {
        let Some(place) = implying(c, at, l) else {
            return false;
        };
        at = place;
        left = rest;
    }
    true
}

/// The same of clauses: most are told apart by their marks.
fn covers_clause(d: &Clause, c: &Clause) -> bool
    ensures { result ≡ covers d.now c.now }
{
    c.know_clause();
    d.may_cover(c) && covers(d.literals(), c.literals())
}

/// Whether d covers c, and is not covered by it: asked of those whose marks leave it open.
#[inline(never)]
fn outdoes_marked(d: &Clause, c: &Clause) -> bool
    ensures { result ≡ outdoes d.now c.now }
{
    c.know_clause();
    covers(d.literals(), c.literals()) && !covers_clause(c, d)
}

/// Whether d covers c, and is not covered by it.
#[tactic(auto, using(crate::proofs::Marking::outdoing))]
fn outdoes(d: &Clause, c: &Clause) -> bool
    ensures { result ≡ outdoes d.now c.now }
{
    d.may_cover(c) && outdoes_marked(d, c)
}

#[tactic(auto, using(crate::proofs::Walks::walks))]
fn is_covered(cs: &[Clause], c: &Clause) -> bool
    ensures { result ≡ is_covered cs.now c.now }
{
    for d in cs {
        if outdoes(d, c) {
            return true;
        }
    }
    false
}

/// Puts a copy of c after the others, unless one of the clauses cs covers it and is not covered by it.
fn push_uncovered(
    alloc: Global,
    cs: &[Clause],
    c: &Clause,
    out: &mut Items<Clause>,
) -> Result<(), Memory>
    ensures { OnOk result (out.new ≡ out.old ++ filter (λ d. not (is_covered cs.now d)) (c.now ∷ [])) }
{
    if is_covered(cs, c) {
        return Ok(());
    }
    out.push(c.copy(alloc)?)?;
    Ok(())
}

/// Copies of those clauses of ds that no clause of cs covers without being covered by it.
#[tactic(auto, using(crate::proofs::Walks::filters))]
fn kept_by(alloc: Global, cs: &[Clause], ds: &[Clause]) -> Result<Items<Clause>, Memory>
    ensures { IfOk result (λ kept. kept ≡ kept_by cs.now ds.now) }
{
    let mut out = Items::new(alloc);
    for d in ds {
        push_uncovered(alloc, cs, d, &mut out)?;
    }
    Ok(out)
}

/// Whether all of ds are kept so.
#[tactic(auto, using(crate::proofs::Walks::walks))]
fn all_stay(cs: &[Clause], ds: &[Clause]) -> bool
    ensures { result ≡ list_all (λ d. not (is_covered cs.now d)) ds.now }
{
    for d in ds {
        if is_covered(cs, d) {
            return false;
        }
    }
    true
}

/// Puts c after the others, unless one of them covers it and is not covered by it.
fn push_thin(c: Clause, out: &mut Items<Clause>) -> Result<(), Memory>
    ensures { OnOk result (out.new ≡ cond (is_covered out.old c) out.old (out.old ++ c ∷ [])) }
{
    if is_covered(out.as_slice(), &c) {
        return Ok(());
    }
    out.push(c)?;
    Ok(())
}

/// The clauses without those that one after them covers, the last one first: each is compared with those that stay.
#[tactic(auto, using(crate::proofs::Thinning::thinning))]
fn thinned(alloc: Global, mut cs: Items<Clause>) -> Result<Items<Clause>, Memory>
    ensures { IfOk result (λ left. AreThinned cs left) }
{
    let mut left = room_for(alloc, cs.len())?;
    while let Some(c) = cs.pop() {
        push_thin(c, &mut left)?;
    }
    Ok(left)
}

/// The same once more from the other end: after it no clause covers another one.
#[tactic(auto, using(crate::proofs::Thinning::settling))]
fn settled(alloc: Global, mut cs: Items<Clause>) -> Result<Items<Clause>, Memory>
    requires { IsThin (reverse cs) }
    ensures { IfOk result (λ kept. kept ≡ uncovered (reverse cs)) }
{
    let mut kept = room_for(alloc, cs.len())?;
    while let Some(c) = cs.pop() {
        push_thin(c, &mut kept)?;
    }
    Ok(kept)
}

/// The clauses that no other one covers. What a clause covers is covered by what covers that one, so those that are left
/// out need not be asked again.
#[tactic(auto, using(crate::proofs::Thinning::both_ways))]
pub(crate) fn uncovered(alloc: Global, cs: Items<Clause>) -> Result<Items<Clause>, Memory>
    ensures { IfOk result (λ kept. kept ≡ uncovered cs) }
{
    let left = thinned(alloc, cs)?;
    let kept = settled(alloc, left)?;
    Ok(kept)
}

/// The tidy form of two tidy lists of clauses: each clause is compared with those of the other list alone.
#[tactic(auto, using(crate::proofs::Across::both))]
pub(crate) fn tidied_both(
    alloc: Global,
    a: &[Clause],
    b: &[Clause],
) -> Result<Items<Clause>, Memory>
    requires left { IsDnf a.now }
    requires right { IsDnf b.now }
    ensures { IfOk result (λ d. d ≡ tidied (a.now ++ b.now)) }
{
    let mut all = kept_by(alloc, b, a)?;
    let more = kept_by(alloc, a, b)?;
    all.append(more)?;
    let sorted = sort_once(alloc, all)?;
    Ok(sorted)
}

/// The same of lists that are handed over: no clause is copied where all stay.
#[tactic(auto, using(crate::proofs::Across::both))]
pub(crate) fn tidied_into(
    alloc: Global,
    a: Items<Clause>,
    b: Items<Clause>,
) -> Result<Items<Clause>, Memory>
    requires left { IsDnf a }
    requires right { IsDnf b }
    ensures { IfOk result (λ d. d ≡ tidied (a ++ b)) }
{
    if !all_stay(b.as_slice(), a.as_slice()) {
        return tidied_both(alloc, a.as_slice(), b.as_slice());
    }
    if !all_stay(a.as_slice(), b.as_slice()) {
        return tidied_both(alloc, a.as_slice(), b.as_slice());
    }
    let mut all = a;
    all.append(b)?;
    let sorted = sort_once(alloc, all)?;
    Ok(sorted)
}
