// A name out of a clause that only bounds it. Bounds on one side are met by some value; where the coefficients of one
// side are 1 or −1 the real shadow is exact; else the dark shadow and its splinters are.

ghost use Rattle.clause_set.specs.declared.literal.Literal.{Literal};
ghost use Rattle.clause_set.specs.Met.{IsMet};
ghost use Rattle.clause_set.specs.Rules.{first_rule, has_unit, is_bounded, measure};
ghost use Rattle.clause_set.specs.Shadows.{lowers, uppers};
ghost use Rattle.omega_elim.specs.Projection.{bounds_entry, projection};
ghost use Rattle.base_budget.specs.Work.{Charged};
ghost use Rattle.std.specs.List.{list_all};
ghost use Rattle.std.specs.Prelude.{◌≡◌, ◌<◌, ◌↔◌, ◌&&◌, ◌||◌, [], ◌∷◌, All, IfOk, length, List, nat_lt, Some, true, ℕ, ℤ};

use base_budget::{Entry, Purse, StepFault};
use clause_set::{Clause, Literal};
use elim_rules::{Side, all_units, bounds_alone, dark, exact, has_name, literals_on, one_sided};
use sqlite_items::Items;
use std::alloc::Global;

/// Whether x is in c, and that in inequalities alone.
pub fn is_bounded(c: &Clause, x: u32) -> bool
    ensures { result ≡ is_bounded x c.now }
{
    has_name(c.literals(), x) && bounds_alone(c.literals(), x)
}

/// Takes x out of c, which has x, and that in inequalities alone, by the first of one-sided, exact and dark that applies:
/// that rule, and the clauses that it leaves. Some integer x satisfies c exactly where some integer x satisfies one of
/// them, and each is nearer to being without x: a splinter has it in an equation (Pugh 1992).
///
/// Refused with Steps where the rule's charge passes the budget, and then nothing is spent; else with Overflow where a
/// number that the rule computes leaves the range, which it names.
#[tactic(auto, using(base_budget::proofs::Charging::charging))]
pub fn project(
    alloc: Global,
    c: &Clause,
    x: u32,
    purse: &mut Purse,
) -> Result<(Entry, Items<Clause>), StepFault>
    requires { is_bounded x c.now ≡ true }
    ensures work { Charged (projection x c.now) purse.old result purse.new }
    ensures exact { IfOk result (λ r. (e : List ℤ) → IsMet (c.now ∷ []) x e ↔ IsMet r.1 x e) }
    ensures nearer { IfOk result (λ r. All (λ d. measure x d < measure x c.now) r.1) }
{
    c.know_clause();
    let lows = literals_on(alloc, c.literals(), x, Side::Lower)?;
    let ups = literals_on(alloc, c.literals(), x, Side::Upper)?;
    by_bounds(alloc, c, x, lows.as_slice(), ups.as_slice(), purse)
}

/// The rule by which `project` takes out a name that inequalities alone bound is the one that comes first in an elimination.
pub fn first_bounds_law()
    ensures { (x : ℕ) (c : List Literal) → is_bounded x c ≡ true → first_rule x c ≡ Some (bounds_entry x c) }
{}

/// Whether there are bounds on both sides.
fn is_two_sided(lows: &[Literal], ups: &[Literal]) -> bool
    ensures { result ≡ (nat_lt 0 (length lows.now) && nat_lt 0 (length ups.now)) }
{
    !lows.is_empty() && !ups.is_empty()
}

/// Whether the coefficients of one side all have the size 1.
fn is_unit(lows: &[Literal], ups: &[Literal], x: u32) -> bool
    ensures { result ≡ (list_all (has_unit x) lows.now || list_all (has_unit x) ups.now) }
{
    all_units(lows, x) || all_units(ups, x)
}

/// The first rule that applies, by the bounds of x.
#[tactic(auto, using(base_budget::proofs::Charging::charging))]
fn by_bounds(
    alloc: Global,
    c: &Clause,
    x: u32,
    lows: &[Literal],
    ups: &[Literal],
    purse: &mut Purse,
) -> Result<(Entry, Items<Clause>), StepFault>
    requires bounded { is_bounded x c.now ≡ true }
    requires lows { lows.now ≡ lowers x c.now }
    requires ups { ups.now ≡ uppers x c.now }
    ensures { Charged (projection x c.now) purse.old result purse.new }
{
    if !is_two_sided(lows, ups) {
        return Ok((Entry::OneSided, one_sided(alloc, c, x, purse)?));
    }
    if is_unit(lows, ups, x) {
        return Ok((Entry::Exact, exact(alloc, c, x, lows, ups, purse)?));
    }
    Ok((Entry::Dark, dark(alloc, c, x, lows, ups, purse)?))
}
