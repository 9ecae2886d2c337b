// The normal form of a conjunction of normal literals.

ghost use Rattle.clause_set.specs.Apart.{form_cmp};
ghost use Rattle.clause_set.specs.Clauses.{compact, is_void, slack, tightened};
ghost use Rattle.clause_set.specs.Order.{is_literal, literal_cmp};
ghost use Rattle.clause_set.specs.Table.{bound_at, tight_or_void};
ghost use Rattle.linear_term.specs.Range.{InRange};
ghost use Rattle.std.specs.Prelude.{◌≡◌, cond, IfOk, IfSome, List, None, ℕ, ℤ, map, Some, true};
ghost use Rattle.std.specs.List.{list_any};
ghost use Rattle.std.specs.List.Sorted.{IsStrictlySortedBy};

use super::apart::{all_leave_open, are_open, rise};
use super::bounds;
use super::literal::Literal;
use super::order::sort_once;
use super::table::{Table, table_of};
use base_budget::room_for;
use linear_term::Memory;
use sqlite_items::Items;
use std::alloc::Global;

/// One of the literals as they tighten it; none where its form has no value. Where they rise by their forms, a bound that
/// all leave open stays as it is.
#[tactic(auto, using(crate::proofs::Plain::open_bounds))]
fn tightened_among(
    alloc: Global,
    table: &Option<Table>,
    literals: &[Literal],
    rises: bool,
    literal: &Literal,
) -> Result<Option<Literal>, Memory>
    requires rising { rises ≡ true → IsStrictlySortedBy form_cmp literals.now }
    requires among { list_any (is_literal literal.now) literals.now ≡ true }
    requires exact { IfSome table.now (λ m. (q : List (ℕ × ℤ)) → bound_at m q ≡ slack literals.now q) }
    requires range { IfSome table.now (λ m. (q : List (ℕ × ℤ)) → IfSome (bound_at m q) (λ k. InRange k)) }
    ensures { IfOk result (λ o. o ≡ tight_or_void literals.now literal.now) }
{
    if let Literal::Geq(t) = literal {
        if rises && all_leave_open(t, literals) {
            return Ok(Some(literal.copy()?));
        }
    }
    bounds::tightened(alloc, table, literals, literal)
}

/// The literals tightened; none where a form has no value.
#[tactic(auto, using(crate::proofs::Tightening::tightenings, crate::proofs::Plain::members))]
fn all_tightened(
    alloc: Global,
    table: &Option<Table>,
    literals: &[Literal],
    rises: bool,
) -> Result<Option<Items<Literal>>, Memory>
    requires rising { rises ≡ true → IsStrictlySortedBy form_cmp literals.now }
    requires exact { IfSome table.now (λ m. (q : List (ℕ × ℤ)) → bound_at m q ≡ slack literals.now q) }
    requires range { IfSome table.now (λ m. (q : List (ℕ × ℤ)) → IfSome (bound_at m q) (λ k. InRange k)) }
    ensures { IfOk result (λ o. o ≡ cond (list_any (is_void literals.now) literals.now) None (Some (map (tightened literals.now) literals.now))) }
{
    let mut out = room_for(alloc, literals.len())?;
    for literal in literals {
        let Some(tight) = tightened_among(alloc, table, literals, rises, literal)? else {
            return Ok(None);
        };
        out.push(tight)?;
    }
    Ok(Some(out))
}

/// Up to this many literals the bounds of a form are looked for among all of them; a table of more is faster.
const WITHOUT_TABLE: usize = 16;

/// A table of all bounds, where there are more than a few literals.
fn table_for(alloc: Global, literals: &[Literal]) -> Result<Option<Table>, Memory>
    ensures exact { IfOk result (λ o. IfSome o (λ m. (q : List (ℕ × ℤ)) → bound_at m q ≡ slack literals.now q)) }
    ensures range { IfOk result (λ o. IfSome o (λ m. (q : List (ℕ × ℤ)) → IfSome (bound_at m q) (λ k. InRange k))) }
{
    if literals.len() <= WITHOUT_TABLE {
        return Ok(None);
    }
    Ok(Some(table_of(alloc, literals)?))
}

/// The literals tightened by all bounds, sorted, each once; none where a form has no value. It is told whether they rise by
/// their forms.
#[tactic(auto, using(crate::proofs::Tightening::ends), unfolding(crate::specs::Clauses::compact))]
fn by_bounds(
    alloc: Global,
    literals: &[Literal],
    rises: bool,
) -> Result<Option<Items<Literal>>, Memory>
    requires { rises ≡ true → IsStrictlySortedBy form_cmp literals.now }
    ensures { IfOk result (λ answer. answer ≡ compact literals.now) }
{
    let table = table_for(alloc, literals)?;
    match all_tightened(alloc, &table, literals, rises)? {
        Some(tight) => Ok(Some(sort_once(alloc, tight)?)),
        None => Ok(None),
    }
}

/// The same of literals that rise by their forms: those that are open are kept as they are.
fn of_rising(alloc: Global, literals: Items<Literal>) -> Result<Option<Items<Literal>>, Memory>
    requires { IsStrictlySortedBy form_cmp literals }
    ensures { IfOk result (λ answer. answer ≡ compact literals) }
{
    if are_open(literals.as_slice()) {
        return Ok(Some(literals));
    }
    by_bounds(alloc, literals.as_slice(), true)
}

/// The literals tightened, sorted, each once; none where a form has no value. Those that rise and bound each form once
/// stay as they are.
pub(crate) fn compact(
    alloc: Global,
    literals: Items<Literal>,
) -> Result<Option<Items<Literal>>, Memory>
    ensures { IfOk result (λ answer. answer ≡ compact literals) }
{
    if rise(literals.as_slice()) {
        return of_rising(alloc, literals);
    }
    let sorted = sort_once(alloc, literals)?;
    if rise(sorted.as_slice()) {
        return of_rising(alloc, sorted);
    }
    by_bounds(alloc, sorted.as_slice(), false)
}
