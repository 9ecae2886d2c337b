// Whether the rule of an entry applies.

ghost use Rattle.clause_set.specs.Names.{is_lower, is_upper};
ghost use Rattle.clause_set.specs.Rules.{applies, has_unit, is_bounded, is_exact, is_two_sided};
ghost use Rattle.std.specs.List.{list_all, list_any};
ghost use Rattle.std.specs.Prelude.{◌≡◌, ◌||◌, not};

use base_budget::Entry;
use clause_set::Clause;
use elim_rules::{
    bounds_alone, has_divisibilities_at, has_equation_at, has_indivisibility_at, has_name,
    has_only_divisibility_at, has_unit, is_lower, is_upper,
};

/// Whether x is in c, and that in inequalities alone.
fn is_bounded(c: &Clause, x: u32) -> bool
    ensures { result ≡ is_bounded x c.now }
{
    has_name(c.literals(), x) && bounds_alone(c.literals(), x)
}

fn has_lower(c: &Clause, x: u32) -> bool
    ensures { result ≡ list_any (is_lower x) c.now }
{
    c.literals().iter().any(|l| is_lower(l, x))
}

fn has_upper(c: &Clause, x: u32) -> bool
    ensures { result ≡ list_any (is_upper x) c.now }
{
    c.literals().iter().any(|l| is_upper(l, x))
}

/// Whether inequalities alone have x, and bound it on both sides.
fn is_two_sided(c: &Clause, x: u32) -> bool
    ensures { result ≡ is_two_sided x c.now }
{
    is_bounded(c, x) && has_lower(c, x) && has_upper(c, x)
}

/// Whether the coefficients of x in its lower bounds are all 1.
fn has_unit_lowers(c: &Clause, x: u32) -> bool
    ensures { result ≡ list_all (λ l. not (is_lower x l) || has_unit x l) c.now }
{
    c.literals()
        .iter()
        .all(|l| !is_lower(l, x) || has_unit(l, x))
}

/// Whether the coefficients of x in its upper bounds are all −1.
fn has_unit_uppers(c: &Clause, x: u32) -> bool
    ensures { result ≡ list_all (λ l. not (is_upper x l) || has_unit x l) c.now }
{
    c.literals()
        .iter()
        .all(|l| !is_upper(l, x) || has_unit(l, x))
}

/// Whether inequalities alone have x, bound it on both sides, and on one of them with coefficients of size 1.
#[tactic(auto, using(crate::proofs::Bounding::bounding))]
fn is_exact(c: &Clause, x: u32) -> bool
    ensures { result ≡ is_exact x c.now }
{
    is_two_sided(c, x) && (has_unit_lowers(c, x) || has_unit_uppers(c, x))
}

/// Whether the rule of the entry applies to x in c.
#[tactic(auto, using(crate::proofs::Bounding::applying))]
pub(crate) fn does_apply(c: &Clause, x: u32, entry: Entry) -> bool
    ensures { result ≡ applies x c.now entry }
{
    match entry {
        Entry::Equation(i) => has_equation_at(c, x, i as usize),
        Entry::Apart(i) => has_indivisibility_at(c, x, i as usize),
        Entry::Merge(i, j) => has_divisibilities_at(c, x, i as usize, j as usize),
        Entry::Shift(i) => has_only_divisibility_at(c, x, i as usize),
        Entry::OneSided => is_bounded(c, x) && !is_two_sided(c, x),
        Entry::Exact => is_exact(c, x),
        Entry::Dark => is_two_sided(c, x),
    }
}
