// The bounds that literals set to a linear form.

ghost use Rattle.clause_set.specs.Clauses.{bounds_apart, is_negative, is_zero, least, same_pairs, slack_of, slack, with_constant};
ghost use Rattle.clause_set.specs.Dnfs.{is_within};
ghost use Rattle.clause_set.specs.Normal.{leads_negative, negated, turned};
ghost use Rattle.clause_set.specs.Table.{bound_at, tight_or_void};
ghost use Rattle.linear_term.specs.Linear.{IsNormal};
ghost use Rattle.linear_term.specs.Range.{InRange};
ghost use Rattle.std.specs.Prelude.{◌≡◌, ◌↔◌, ◌+ℤ◌, pos, int_lt, neg_ℤ, All, IfOk, IfSome, IsTrue, List, ℕ, ℤ};

use super::literal::Literal;
use super::table::{Table, bounds_at};
use linear_term::{Memory, Term};
use std::alloc::Global;

/// Each coefficient negated.
pub(crate) fn negated(alloc: Global, pairs: &[(u32, i128)]) -> Result<Vec<(u32, i128)>, Memory>
    requires { All (λ p. InRange p.1) pairs.now }
    ensures { IfOk result (λ v. v.items ≡ negated pairs.now) }
{
    let mut out = Vec::with_capacity(alloc, pairs.len())?;
    for pair in pairs {
        out.push((pair.0, -pair.1))?;
    }
    Ok(out)
}

/// Whether two lists of coefficients are the same.
#[tactic(auto, using(crate::proofs::Opposites::opposites))]
pub(crate) fn same_pairs(p: &[(u32, i128)], q: &[(u32, i128)]) -> bool
    ensures { result ≡ same_pairs p.now q.now }
{
    if p.len() != q.len() {
        return false;
    }
    p.cmp(&q).is_eq()
}

/// Whether the coefficients p are the opposite of q.
#[tactic(auto, using(crate::proofs::Opposites::opposites))]
pub(crate) fn are_opposite(p: &[(u32, i128)], q: &[(u32, i128)]) -> bool
    requires { All (λ r. InRange r.1) q.now }
    ensures { result ≡ same_pairs p.now (negated q.now) }
{
    if p.len() != q.len() {
        return false;
    }
    let (mut p, mut q) = (p, q);
    while let Some((x, p_rest)) = p.split_first() {
        let Some((y, q_rest)) = q.split_first() else {
            return false;
        };
        if !is_opposite(x, y) {
            return false;
        }
        p = p_rest;
        q = q_rest;
    }
    q.is_empty()
}

fn is_opposite(x: &(u32, i128), y: &(u32, i128)) -> bool
    requires { InRange y.now.1 }
    ensures { IsTrue result ↔ ((x.now.0 ≡ y.now.0) × (x.now.1 ≡ neg_ℤ y.now.1)) }
{
    x.0 == y.0 && x.1 == -y.1
}

/// The lesser of two bounds, where there are any.
fn least(j: Option<i128>, k: Option<i128>) -> Option<i128>
    ensures exact { result ≡ least j k }
    ensures range { IfSome j (λ n. InRange n) → IfSome k (λ n. InRange n) → IfSome result (λ n. InRange n) }
{
    let Some(first) = j else {
        return k;
    };
    let Some(second) = k else {
        return j;
    };
    Some(first.min(second))
}

/// The number k of which the literal says p + k ≥ 0.
fn slack_of(literal: &Literal, p: &[(u32, i128)]) -> Option<i128>
    requires { All (λ r. InRange r.1) p.now }
    ensures exact { result ≡ slack_of literal.now p.now }
    ensures range { IfSome result (λ k. InRange k) }
{
    match literal {
        Literal::Eq(t) => equation_slack(t, p),
        Literal::Geq(t) => {
            if same_pairs(t.pairs(), p) {
                return Some(t.constant());
            }
            None
        }
        Literal::Div(_, _) => None,
        Literal::NDiv(_, _) => None,
    }
}

fn equation_slack(t: &Term, p: &[(u32, i128)]) -> Option<i128>
    requires { All (λ r. InRange r.1) p.now }
    ensures exact { result ≡ slack_of (Literal.Eq t.now) p.now }
    ensures range { IfSome result (λ k. InRange k) }
{
    if same_pairs(t.pairs(), p) {
        return Some(t.constant());
    }
    if are_opposite(t.pairs(), p) {
        return Some(-t.constant());
    }
    None
}

/// The least number k of which one of the literals says p + k ≥ 0.
#[tactic(auto, using(crate::proofs::Slack::slacks))]
pub fn slack(literals: &[Literal], p: &[(u32, i128)]) -> Option<i128>
    requires { All (λ r. InRange r.1) p.now }
    ensures exact { result ≡ slack literals.now p.now }
    ensures range { IfSome result (λ k. InRange k) }
{
    let mut found = None;
    for literal in literals {
        found = least(found, slack_of(literal, p));
    }
    found
}

/// The number k of which the literal says −p + k ≥ 0.
#[tactic(auto, using(crate::proofs::Slack::opposites))]
fn opposite_slack_of(literal: &Literal, p: &[(u32, i128)]) -> Option<i128>
    requires { All (λ r. InRange r.1) p.now }
    ensures exact { result ≡ slack_of literal.now (negated p.now) }
    ensures range { IfSome result (λ k. InRange k) }
{
    match literal {
        Literal::Eq(t) => opposite_equation_slack(t, p),
        Literal::Geq(t) => {
            if are_opposite(t.pairs(), p) {
                return Some(t.constant());
            }
            None
        }
        Literal::Div(_, _) => None,
        Literal::NDiv(_, _) => None,
    }
}

#[tactic(auto, using(crate::proofs::Slack::opposites))]
fn opposite_equation_slack(t: &Term, p: &[(u32, i128)]) -> Option<i128>
    requires { All (λ r. InRange r.1) p.now }
    ensures exact { result ≡ slack_of (Literal.Eq t.now) (negated p.now) }
    ensures range { IfSome result (λ k. InRange k) }
{
    if are_opposite(t.pairs(), p) {
        return Some(t.constant());
    }
    if same_pairs(t.pairs(), p) {
        return Some(-t.constant());
    }
    None
}

/// The least number k of which one of the literals says −p + k ≥ 0.
#[tactic(auto, using(crate::proofs::Slack::slacks))]
fn opposite_slack(literals: &[Literal], p: &[(u32, i128)]) -> Option<i128>
    requires { All (λ r. InRange r.1) p.now }
    ensures exact { result ≡ slack literals.now (negated p.now) }
    ensures range { IfSome result (λ k. InRange k) }
{
    let mut found = None;
    for literal in literals {
        found = least(found, opposite_slack_of(literal, p));
    }
    found
}

/// The least numbers that the literals have for the term's coefficients and for their opposite: out of their table, or
/// where there is none by a walk over the literals.
#[tactic(auto, using(crate::proofs::Terms::terms))]
fn ends_of(
    alloc: Global,
    table: &Option<Table>,
    literals: &[Literal],
    t: &Term,
) -> Result<(Option<i128>, Option<i128>), Memory>
    requires exact { IfSome table.now (λ m. (q : List (ℕ × ℤ)) → bound_at m q ≡ slack literals.now q) }
    requires range { IfSome table.now (λ m. (q : List (ℕ × ℤ)) → IfSome (bound_at m q) (λ k. InRange k)) }
    ensures own { IfOk result (λ both. both.0 ≡ slack literals.now t.now.pairs) }
    ensures opposite { IfOk result (λ both. both.1 ≡ slack literals.now (negated t.now.pairs)) }
    ensures own_range { IfOk result (λ both. IfSome both.0 (λ k. InRange k)) }
    ensures opposite_range { IfOk result (λ both. IfSome both.1 (λ k. InRange k)) }
{
    match table {
        Some(held) => {
            let both = bounds_at(alloc, held, t)?;
            Ok(both)
        }
        None => {
            t.know_normal();
            let own = slack(literals, t.pairs());
            let opposite = opposite_slack(literals, t.pairs());
            Ok((own, opposite))
        }
    }
}

/// Whether the literal bounds the coefficients of t at least as tightly as t ≥ 0 does. Of bounds the constants are asked
/// first, in which most of them differ.
#[tactic(auto, using(crate::proofs::Slack::within, crate::proofs::Terms::terms))]
pub(crate) fn sets_bound(l: &Literal, t: &Term) -> bool
    ensures { result ≡ is_within (slack_of l.now t.now.pairs) t.now.constant }
{
    match l {
        Literal::Eq(s) => equation_sets_bound(s, t),
        Literal::Geq(s) => s.constant() <= t.constant() && same_pairs(s.pairs(), t.pairs()),
        Literal::Div(_, _) => false,
        Literal::NDiv(_, _) => false,
    }
}

#[tactic(auto, using(crate::proofs::Terms::terms))]
fn equation_sets_bound(s: &Term, t: &Term) -> bool
    ensures { result ≡ is_within (slack_of (Literal.Eq s.now) t.now.pairs) t.now.constant }
{
    t.know_normal();
    if same_pairs(s.pairs(), t.pairs()) {
        return s.constant() <= t.constant();
    }
    if are_opposite(s.pairs(), t.pairs()) {
        return opposite_of(s.constant()) <= t.constant();
    }
    false
}

/// Whether bounds −j from below and k from above leave no value between them.
#[tactic(auto, using(crate::proofs::Slack::apart))]
fn is_negative(j: Option<i128>, k: Option<i128>) -> bool
    requires { IfSome k (λ n. InRange n) }
    ensures { result ≡ is_negative (bounds_apart j k) }
{
    let Some(first) = j else {
        return false;
    };
    let Some(second) = k else {
        return false;
    };
    first < -second
}

/// Whether bounds −j from below and k from above leave one value between them.
#[tactic(auto, using(crate::proofs::Slack::apart))]
fn is_zero(j: Option<i128>, k: Option<i128>) -> bool
    requires { IfSome k (λ n. InRange n) }
    ensures { result ≡ is_zero (bounds_apart j k) }
{
    let Some(first) = j else {
        return false;
    };
    let Some(second) = k else {
        return false;
    };
    first == -second
}

/// The term of these coefficients and this constant, or its opposite: the one whose first coefficient is positive.
#[tactic(auto, using(crate::proofs::Terms::turning))]
pub(crate) fn turned(
    alloc: Global,
    pairs: &[(u32, i128)],
    opposite: &[(u32, i128)],
    constant: i128,
) -> Result<Term, Memory>
    requires normal { IsNormal (record { pairs = pairs.now; constant = constant }) }
    requires opposite { opposite.now ≡ negated pairs.now }
    ensures { IfOk result (λ t. t ≡ turned (record { pairs = pairs.now; constant = constant })) }
{
    if leads_negative(pairs) {
        return Term::of(alloc, opposite, opposite_of(constant));
    }
    Term::of(alloc, pairs, constant)
}

pub(crate) fn opposite_of(k: i128) -> i128
    requires { InRange k }
    ensures { result ≡ neg_ℤ k }
{
    -k
}

pub(crate) fn leads_negative(pairs: &[(u32, i128)]) -> bool
    ensures { result ≡ leads_negative pairs.now }
{
    let Some((first, _)) = pairs.split_first() else {
        return false;
    };
    first.1 < 0
}

/// The bound t ≥ 0 as the tightest one of the literals, as an equation where its coefficients have one value alone; none
/// where they have no value.
#[tactic(auto, using(crate::proofs::Terms::turning))]
fn tightened_bound(
    alloc: Global,
    table: &Option<Table>,
    literals: &[Literal],
    t: &Term,
) -> Result<Option<Literal>, Memory>
    requires exact { IfSome table.now (λ m. (q : List (ℕ × ℤ)) → bound_at m q ≡ slack literals.now q) }
    requires range { IfSome table.now (λ m. (q : List (ℕ × ℤ)) → IfSome (bound_at m q) (λ k. InRange k)) }
    ensures { IfOk result (λ o. o ≡ tight_or_void literals.now (Literal.Geq t.now)) }
{
    t.know_normal();
    let (low, high) = ends_of(alloc, table, literals, t)?;
    if is_negative(low, high) {
        return Ok(None);
    }
    let constant = constant_of(low, t);
    if is_zero(low, high) {
        let opposite = negated(alloc, t.pairs())?;
        let point = turned(alloc, t.pairs(), opposite.as_slice(), constant)?;
        return Ok(Some(Literal::Eq(point)));
    }
    Ok(Some(Literal::Geq(Term::of(alloc, t.pairs(), constant)?)))
}

/// The equation t = 0; none where its coefficients have no value.
#[tactic(auto, using(crate::proofs::Terms::terms))]
fn kept_equation(
    alloc: Global,
    table: &Option<Table>,
    literals: &[Literal],
    t: &Term,
) -> Result<Option<Literal>, Memory>
    requires exact { IfSome table.now (λ m. (q : List (ℕ × ℤ)) → bound_at m q ≡ slack literals.now q) }
    requires range { IfSome table.now (λ m. (q : List (ℕ × ℤ)) → IfSome (bound_at m q) (λ k. InRange k)) }
    ensures { IfOk result (λ o. o ≡ tight_or_void literals.now (Literal.Eq t.now)) }
{
    t.know_normal();
    let (own, opposite) = ends_of(alloc, table, literals, t)?;
    if is_negative(own, opposite) {
        return Ok(None);
    }
    Ok(Some(Literal::Eq(t.copy()?)))
}

fn constant_of(k: Option<i128>, t: &Term) -> i128
    requires { IfSome k (λ n. InRange n) }
    ensures exact { record { pairs = t.now.pairs; constant = result } ≡ with_constant k t.now }
    ensures range { InRange result }
{
    match k {
        Some(constant) => constant,
        None => t.constant(),
    }
}

/// The literal as the others tighten it; none where its coefficients have no value.
pub(crate) fn tightened(
    alloc: Global,
    table: &Option<Table>,
    literals: &[Literal],
    literal: &Literal,
) -> Result<Option<Literal>, Memory>
    requires exact { IfSome table.now (λ m. (q : List (ℕ × ℤ)) → bound_at m q ≡ slack literals.now q) }
    requires range { IfSome table.now (λ m. (q : List (ℕ × ℤ)) → IfSome (bound_at m q) (λ k. InRange k)) }
    ensures { IfOk result (λ o. o ≡ tight_or_void literals.now literal.now) }
{
    match literal {
        Literal::Geq(t) => tightened_bound(alloc, table, literals, t),
        Literal::Eq(t) => kept_equation(alloc, table, literals, t),
        Literal::Div(_, _) => Ok(Some(literal.copy()?)),
        Literal::NDiv(_, _) => Ok(Some(literal.copy()?)),
    }
}
