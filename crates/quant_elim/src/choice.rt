// Which rule comes first for a name in a clause, and where its literals stand.

ghost use Rattle.clause_set.specs.Names.{coefficient, is_divisibility, is_equation, is_indivisibility};
ghost use Rattle.clause_set.specs.Rules.{first_rule, is_least_equation};
ghost use Rattle.quant_elim.specs.First.{entry_of};
ghost use Rattle.std.specs.List.{list_all};
ghost use Rattle.std.specs.Option.{option_map};
ghost use Rattle.std.specs.Prelude.{◌≡◌, ◌<◌, ◌+◌, ◌&&◌, drop, length, nat_lt, not, position, unsigned_abs};

use clause_set::{Clause, Literal};
use elim_steps::{is_divisibility, is_equation, is_indivisibility};
use omega_elim::is_bounded;

/// The rule that comes first, with the places of its literals in the clause.
#[derive(Clone, Copy, Debug, PartialEq, Eq)]
pub(crate) enum Choice {
    Equation(usize),
    Apart(usize),
    Merge(usize, usize),
    Shift(usize),
    /// One-sided, exact or dark: inequalities alone have the name.
    Bounds,
}

/// The size of the coefficient of x.
fn coefficient_size(l: &Literal, x: u32) -> u128
    ensures { result ≡ unsigned_abs (coefficient x l.now) }
{
    l.term().coef(x).unsigned_abs()
}

/// Whether m is an equation whose coefficient of x is smaller than that of l.
fn is_smaller(m: &Literal, l: &Literal, x: u32) -> bool
    ensures { result ≡ (is_equation x m.now && nat_lt (unsigned_abs (coefficient x m.now)) (unsigned_abs (coefficient x l.now))) }
{
    is_equation(m, x) && coefficient_size(m, x) < coefficient_size(l, x)
}

/// Whether no equation has a smaller coefficient of x than l.
fn has_least_coefficient(ls: &[Literal], l: &Literal, x: u32) -> bool
    ensures { result ≡ list_all (λ m. not (is_equation x m && nat_lt (unsigned_abs (coefficient x m)) (unsigned_abs (coefficient x l.now)))) ls.now }
{
    ls.iter().all(|m| !is_smaller(m, l, x))
}

/// Whether l is an equation with x, and no equation of c has a smaller coefficient of x.
fn is_least_equation(c: &Clause, l: &Literal, x: u32) -> bool
    ensures { result ≡ is_least_equation x c.now l.now }
{
    is_equation(l, x) && has_least_coefficient(c.literals(), l, x)
}

/// The place of the equation with the least coefficient of x, the first among equals.
fn least_equation_place(c: &Clause, x: u32) -> Option<usize>
    ensures { result ≡ position (is_least_equation x c.now) c.now }
{
    c.literals().iter().position(|l| is_least_equation(c, l, x))
}

/// The place of the first negated divisibility with x.
fn indivisibility_place(ls: &[Literal], x: u32) -> Option<usize>
    ensures { result ≡ position (is_indivisibility x) ls.now }
{
    ls.iter().position(|l| is_indivisibility(l, x))
}

/// The place of the first divisibility with x.
fn divisibility_place(ls: &[Literal], x: u32) -> Option<usize>
    ensures { result ≡ position (is_divisibility x) ls.now }
{
    ls.iter().position(|l| is_divisibility(l, x))
}

/// The literals after the one at i.
fn behind(ls: &[Literal], i: usize) -> &[Literal]
    requires { i < length ls.now }
    ensures { result.now ≡ drop (i + 1) ls.now }
{
    &ls[i + 1..]
}

/// The rule that comes first for x in c; none where c is without x.
#[tactic(auto, using(crate::proofs::Choices::choices))]
pub(crate) fn first_choice(c: &Clause, x: u32) -> Option<Choice>
    ensures { option_map (entry_of x c.now) result ≡ first_rule x c.now }
{
    if let Some(i) = least_equation_place(c, x) {
        return Some(Choice::Equation(i));
    }
    if let Some(i) = indivisibility_place(c.literals(), x) {
        return Some(Choice::Apart(i));
    }
    if let Some(i) = divisibility_place(c.literals(), x) {
        return match divisibility_place(behind(c.literals(), i), x) {
            Some(j) => Some(Choice::Merge(i, i + 1 + j)),
            None => Some(Choice::Shift(i)),
        };
    }
    if is_bounded(c, x) {
        return Some(Choice::Bounds);
    }
    None
}
