// The bounds of all linear forms at once.

ghost use Rattle.clause_set.specs.Clauses.{least, same_pairs, slack, slack_of};
ghost use Rattle.clause_set.specs.Normal.{negated};
ghost use Rattle.clause_set.specs.Table.{bound_at, end_of, ends_at, led, with_end};
ghost use Rattle.linear_term.specs.Range.{InRange};
ghost use Rattle.std.specs.Prelude.{◌≡◌, All, IfOk, IfSome, OnOk, Some, None, cond, Vec, ℕ, ℤ, List};

use super::bounds::{leads_negative, negated, opposite_of, same_pairs};
use super::literal::Literal;
use linear_term::{Memory, Term};
use std::alloc::Global;
use std::collections::BTreeMap;

/// The least numbers k and l of which literals say p + k ≥ 0 and −p + l ≥ 0, where they say so.
#[derive(Clone, Copy, Debug, PartialEq, Eq)]
pub(crate) struct Ends {
    pub own: Option<i128>,
    pub opposite: Option<i128>,
}

/// For each list of coefficients that literals bound, and whose first one is not negative, its ends.
pub(crate) type Table = BTreeMap<Vec<(u32, i128)>, Ends>;

fn end_of(ends: Option<Ends>, opposite: bool) -> Option<i128>
    ensures { result ≡ end_of opposite ends }
{
    match ends {
        Some(both) if opposite => both.opposite,
        Some(both) => both.own,
        None => None,
    }
}

fn ends_at(table: &Table, p: &[(u32, i128)]) -> Option<Ends>
    ensures { result ≡ ends_at table.now p.now }
{
    table.get(p).copied()
}

/// The least numbers that the table has for the term's coefficients and for their opposite.
#[tactic(auto, using(crate::proofs::Terms::terms))]
pub(crate) fn bounds_at(
    alloc: Global,
    table: &Table,
    t: &Term,
) -> Result<(Option<i128>, Option<i128>), Memory>
    requires { (q : List (ℕ × ℤ)) → IfSome (bound_at table.now q) (λ k. InRange k) }
    ensures own { IfOk result (λ both. both.0 ≡ bound_at table.now t.now.pairs) }
    ensures opposite { IfOk result (λ both. both.1 ≡ bound_at table.now (negated t.now.pairs)) }
    ensures own_range { IfOk result (λ both. IfSome both.0 (λ k. InRange k)) }
    ensures opposite_range { IfOk result (λ both. IfSome both.1 (λ k. InRange k)) }
{
    t.know_normal();
    if leads_negative(t.pairs()) {
        let opposite = negated(alloc, t.pairs())?;
        let ends = ends_at(table, opposite.as_slice());
        return Ok((end_of(ends, true), end_of(ends, false)));
    }
    let ends = ends_at(table, t.pairs());
    let own = end_of(ends, false);
    if t.pairs().is_empty() {
        return Ok((own, own));
    }
    Ok((own, end_of(ends, true)))
}

/// The coefficients or their opposite: those whose first one is not negative.
fn led(alloc: Global, p: &[(u32, i128)]) -> Result<Vec<(u32, i128)>, Memory>
    requires { All (λ r. InRange r.1) p.now }
    ensures { IfOk result (λ v. v.items ≡ led p.now) }
{
    if leads_negative(p) {
        return negated(alloc, p);
    }
    Ok(Vec::from_slice(alloc, p)?)
}

fn lesser(held: Option<i128>, k: i128) -> i128
    ensures { Some result ≡ least held (Some k) }
{
    match held {
        Some(other) => other.min(k),
        None => k,
    }
}

/// The ends that are held with one more number of the coefficients, or of their opposite.
fn with_end(held: Option<Ends>, opposite: bool, k: i128) -> Ends
    ensures { result ≡ with_end held opposite k }
{
    let (own, other) = (end_of(held, false), end_of(held, true));
    if opposite {
        return Ends {
            own,
            opposite: Some(lesser(other, k)),
        };
    }
    Ends {
        own: Some(lesser(own, k)),
        opposite: other,
    }
}

/// Puts ends at p into a table, and says which stood there.
fn put_at(table: &mut Table, p: Vec<(u32, i128)>, ends: Ends) -> Result<Option<Ends>, Memory>
    ensures held { IfOk result (λ held. held ≡ ends_at table.old p.items) }
    ensures put { OnOk result ((q : List (ℕ × ℤ)) → ends_at table.new q ≡ cond (same_pairs q p.items) (Some ends) (ends_at table.old q)) }
{
    Ok(table.insert(p, ends)?)
}

/// Puts the bound p + k ≥ 0 into a table: ends that stood there are put back with it.
fn put_bound(alloc: Global, table: &mut Table, p: &[(u32, i128)], k: i128) -> Result<(), Memory>
    requires { All (λ r. InRange r.1) p.now }
    ensures { OnOk result ((q : List (ℕ × ℤ)) → bound_at table.new q ≡ least (bound_at table.old q) (cond (same_pairs p.now q) (Some k) None)) }
{
    let opposite = leads_negative(p);
    let held = put_at(table, led(alloc, p)?, with_end(None, opposite, k))?;
    if held.is_some() {
        put_at(table, led(alloc, p)?, with_end(held, opposite, k))?;
    }
    Ok(())
}

/// Puts both bounds of t = 0 into a table.
#[tactic(auto, using(crate::proofs::Terms::terms))]
fn put_equation(alloc: Global, table: &mut Table, t: &Term) -> Result<(), Memory>
    ensures { OnOk result ((q : List (ℕ × ℤ)) → bound_at table.new q ≡ least (bound_at table.old q) (slack_of (Literal.Eq t.now) q)) }
{
    t.know_normal();
    let opposite = negated(alloc, t.pairs())?;
    let same = same_pairs(t.pairs(), opposite.as_slice());
    put_bound(alloc, table, t.pairs(), t.constant())?;
    if same {
        return Ok(());
    }
    put_bound(alloc, table, opposite.as_slice(), opposite_of(t.constant()))?;
    Ok(())
}

/// Puts the bounds that a literal sets into a table.
#[tactic(auto, using(crate::proofs::Tables::tables, crate::proofs::Terms::terms))]
fn put_literal(alloc: Global, table: &mut Table, l: &Literal) -> Result<(), Memory>
    ensures exact { OnOk result ((q : List (ℕ × ℤ)) → bound_at table.new q ≡ least (bound_at table.old q) (slack_of l.now q)) }
    ensures range { (q : List (ℕ × ℤ)) → IfSome (slack_of l.now q) (λ k. InRange k) }
{
    l.term().know_normal();
    match l {
        Literal::Eq(t) => put_equation(alloc, table, t),
        Literal::Geq(t) => put_bound(alloc, table, t.pairs(), t.constant()),
        Literal::Div(_, _) => Ok(()),
        Literal::NDiv(_, _) => Ok(()),
    }
}

/// The least bounds that the literals set to each list of coefficients.
#[tactic(auto, using(crate::proofs::Tables::tables))]
pub(crate) fn table_of(alloc: Global, literals: &[Literal]) -> Result<Table, Memory>
    ensures exact { IfOk result (λ m. (q : List (ℕ × ℤ)) → bound_at m q ≡ slack literals.now q) }
    ensures range { IfOk result (λ m. (q : List (ℕ × ℤ)) → IfSome (bound_at m q) (λ k. InRange k)) }
{
    let mut table = BTreeMap::new(alloc);
    for literal in literals {
        put_literal(alloc, &mut table, literal)?;
    }
    Ok(table)
}
