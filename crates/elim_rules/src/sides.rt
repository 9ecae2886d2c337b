// The literals of a clause by what they say of a name, and what they say.

ghost use Rattle.clause_set.specs.Names.{coefficient, has, is_bound, is_lower, is_upper, remainder};
ghost use Rattle.clause_set.specs.Rules.{has_unit};
ghost use Rattle.clause_set.specs.Shadows.{factor, greatest_factor};
ghost use Rattle.linear_term.specs.Range.{InRange};
ghost use Rattle.linear_term.specs.Linear.{mentions};
ghost use Rattle.elim_rules.specs.Sides.{stands};
ghost use Rattle.std.specs.List.{list_all, list_any};
ghost use Rattle.std.specs.Ordering.{int_eq};
ghost use Rattle.std.specs.Prelude.{◌≡◌, ◌||◌, filter, IfOk, not, pos};

use clause_set::Literal;
use elim_steps::mentions;
use linear_term::{Memory, Term};
use sqlite_items::Items;
use std::alloc::Global;

/// How a literal stands to a name: it is without it, or bounds it from below or from above.
#[derive(Clone, Copy, Debug, PartialEq, Eq)]
pub enum Side {
    Without,
    Lower,
    Upper,
}

/// Whether a literal is a lower bound of x.
pub fn is_lower(l: &Literal, x: u32) -> bool
    ensures { result ≡ is_lower x l.now }
{
    match l {
        Literal::Eq(_) => false,
        Literal::Geq(t) => mentions(t, x) && t.coef(x) > 0,
        Literal::Div(_, _) => false,
        Literal::NDiv(_, _) => false,
    }
}

/// Whether a literal is an upper bound of x.
pub fn is_upper(l: &Literal, x: u32) -> bool
    ensures { result ≡ is_upper x l.now }
{
    match l {
        Literal::Eq(_) => false,
        Literal::Geq(t) => mentions(t, x) && t.coef(x) < 0,
        Literal::Div(_, _) => false,
        Literal::NDiv(_, _) => false,
    }
}

fn stands(l: &Literal, x: u32, side: Side) -> bool
    ensures { result ≡ stands side x l.now }
{
    match side {
        Side::Without => !mentions(l.term(), x),
        Side::Lower => is_lower(l, x),
        Side::Upper => is_upper(l, x),
    }
}

/// The literals that stand so to x, in their order.
#[tactic(auto, using(crate::proofs::Filters::filters))]
pub fn literals_on(
    alloc: Global,
    ls: &[Literal],
    x: u32,
    side: Side,
) -> Result<Items<Literal>, Memory>
    ensures { IfOk result (λ some. some ≡ filter (stands side x) ls.now) }
{
    let mut out = Items::new(alloc);
    for l in ls {
        if stands(l, x, side) {
            out.push(l.copy()?)?;
        }
    }
    Ok(out)
}

/// The size of the coefficient of x.
pub(crate) fn factor(l: &Literal, x: u32) -> i128
    ensures exact { result ≡ factor x l.now }
    ensures range { InRange result }
{
    l.term().coef(x).abs()
}

/// The literal's term without x.
pub(crate) fn remainder(l: &Literal, x: u32) -> Result<Term, Memory>
    ensures { IfOk result (λ t. t ≡ remainder x l.now) }
{
    l.term().without(x)
}

/// Whether the coefficient of x is 1 or −1.
pub fn has_unit(l: &Literal, x: u32) -> bool
    ensures { result ≡ has_unit x l.now }
{
    l.term().coef(x).unsigned_abs() == 1
}

/// Whether the coefficients of x all have the size 1.
#[tactic(auto, using(clause_set::proofs::Walks::walks))]
pub fn all_units(ls: &[Literal], x: u32) -> bool
    ensures { result ≡ list_all (has_unit x) ls.now }
{
    for l in ls {
        if !has_unit(l, x) {
            return false;
        }
    }
    true
}

/// The greatest size of a coefficient of x.
#[tactic(auto, using(crate::proofs::Filters::greatest))]
pub(crate) fn greatest_factor(ls: &[Literal], x: u32) -> i128
    ensures exact { result ≡ pos (greatest_factor x ls.now) }
    ensures range { InRange result }
{
    let mut most = 0;
    for l in ls {
        most = most.max(factor(l, x));
    }
    most
}

/// Whether x is in some literal.
#[tactic(auto, using(clause_set::proofs::Walks::walks))]
pub fn has_name(ls: &[Literal], x: u32) -> bool
    ensures { result ≡ list_any (has x) ls.now }
{
    for l in ls {
        if mentions(l.term(), x) {
            return true;
        }
    }
    false
}

/// Whether the literal is an inequality, or without x.
fn is_free_or_bound(l: &Literal, x: u32) -> bool
    ensures { result ≡ (not (has x l.now) || is_bound x l.now) }
{
    match l {
        Literal::Eq(t) => !mentions(t, x),
        Literal::Geq(_) => true,
        Literal::Div(_, t) => !mentions(t, x),
        Literal::NDiv(_, t) => !mentions(t, x),
    }
}

/// Whether the literals with x are all inequalities.
#[tactic(auto, using(clause_set::proofs::Walks::walks))]
pub fn bounds_alone(ls: &[Literal], x: u32) -> bool
    ensures { result ≡ list_all (λ l. not (has x l) || is_bound x l) ls.now }
{
    for l in ls {
        if !is_free_or_bound(l, x) {
            return false;
        }
    }
    true
}
