// The rule of the only divisibility with x, of b·x + t by d, where no equation and no negated divisibility has x. With
// (g, u, _) = bezout(b, d) it holds exactly where g divides t and x is −u·t/g + k·d/g for some integer k, so each bound
// a·x + s ≥ 0 becomes a·d·k + g·s − a·u·t ≥ 0, where x stands for k.

ghost use Rattle.clause_set.specs.Bezout.{bezout};
ghost use Rattle.clause_set.specs.Divisibilities.{shifted, shifted_bound};
ghost use Rattle.clause_set.specs.Literals.{HasDivisor, IsDivisor, term_of};
ghost use Rattle.clause_set.specs.Met.{IsMet};
ghost use Rattle.clause_set.specs.Order.{divisor_of};
ghost use Rattle.clause_set.specs.Rules.{applies, measure, rule};
ghost use Rattle.clause_set.specs.declared.literal.Literal.TheVariants.{Geq};
ghost use Rattle.elim_rules.specs.Answers.{bezout_of};
ghost use Rattle.elim_rules.specs.Congruences.{IsCongruence, shifted_beside};
ghost use Rattle.linear_term.specs.Linear.{coef_of};
ghost use Rattle.base_budget.specs.Trace.{each, just};
ghost use Rattle.base_budget.specs.Work.{Charged, Worked};
ghost use Rattle.base_budget.specs.declared.log.Entry.TheVariants.{Shift};
ghost use Rattle.std.specs.Prelude.{◌≡◌, ◌<◌, ◌↔◌, ℤ, List, [], ◌∷◌, All, IfOk, true};

use super::numbers::{Cofactors, coefficients, multiplied, opposite, times, with_name};
use super::parts::divisor;
use base_budget::{Purse, StepFault};
use clause_set::{Clause, Literal};
use elim_steps::{alone, combining, computing, in_form, mentions, whole_charge};
use linear_term::Term;
use sqlite_items::Items;
use std::alloc::Global;

/// A bound r ≥ 0 with x at the solutions of the divisibility l.
#[tactic(auto, using(base_budget::proofs::Charging::working, crate::proofs::Steps::divisors, crate::proofs::Merging::merging))]
fn shifted_bound(
    alloc: Global,
    x: u32,
    z: &Cofactors,
    l: &Literal,
    r: &Term,
) -> Result<Items<Literal>, StepFault>
    requires cofactor { IsDivisor z.now.g }
    ensures work { Worked (shifted_bound x (divisor_of l.now) (bezout_of z.now) (term_of l.now) r.now) result }
    ensures divisors { IfOk result (λ ls. All HasDivisor ls) }
{
    let a = r.coef(x);
    let d = divisor(l);
    computing(&[times(a, d), times(a, z.p)])?;
    let s = r.without(x)?;
    let t = l.term().without(x)?;
    let v = combining(z.g, &s, opposite(multiplied(a, z.p)), &t)?;
    let u = with_name(alloc, x, multiplied(a, d), &v)?;
    Ok(alone(alloc, Literal::Geq(u))?)
}

#[tactic(auto, using(base_budget::proofs::Charging::working, crate::proofs::Steps::divisors))]
fn shifted_or_kept(
    alloc: Global,
    x: u32,
    z: &Cofactors,
    l: &Literal,
    r: &Term,
) -> Result<Items<Literal>, StepFault>
    requires cofactor { IsDivisor z.now.g }
    ensures work { Worked (shifted x (divisor_of l.now) (bezout_of z.now) (term_of l.now) (Geq r.now)) result }
    ensures divisors { IfOk result (λ ls. All HasDivisor ls) }
{
    if mentions(r, x) {
        shifted_bound(alloc, x, z, l, r)
    } else {
        Ok(alone(alloc, Literal::Geq(r.copy()?))?)
    }
}

#[tactic(auto, using(base_budget::proofs::Charging::working, crate::proofs::Steps::divisors))]
fn kept(alloc: Global, m: &Literal) -> Result<Items<Literal>, StepFault>
    requires divisor { HasDivisor m.now }
    ensures work { Worked (just (m.now ∷ [])) result }
    ensures divisors { IfOk result (λ ls. All HasDivisor ls) }
{
    Ok(alone(alloc, m.copy()?)?)
}

/// A literal at the solutions of the divisibility l.
fn shifted(
    alloc: Global,
    x: u32,
    z: &Cofactors,
    l: &Literal,
    m: &Literal,
) -> Result<Items<Literal>, StepFault>
    requires cofactor { IsDivisor z.now.g }
    requires divisor { HasDivisor m.now }
    ensures work { Worked (shifted x (divisor_of l.now) (bezout_of z.now) (term_of l.now) m.now) result }
    ensures divisors { IfOk result (λ ls. All HasDivisor ls) }
{
    match m {
        Literal::Geq(r) => shifted_or_kept(alloc, x, z, l, r),
        Literal::Eq(_) => kept(alloc, m),
        Literal::Div(_, _) => kept(alloc, m),
        Literal::NDiv(_, _) => kept(alloc, m),
    }
}

/// The other literals at the solutions of the divisibility l.
#[tactic(auto, using(base_budget::proofs::Charging::leaving))]
fn all_shifted(
    alloc: Global,
    x: u32,
    z: &Cofactors,
    l: &Literal,
    rest: &[Literal],
) -> Result<Items<Literal>, StepFault>
    requires cofactor { IsDivisor z.now.g }
    requires divisors { All HasDivisor rest.now }
    ensures work { Worked (each (shifted x (divisor_of l.now) (bezout_of z.now) (term_of l.now)) rest.now []) result }
    ensures divisors { IfOk result (λ ls. All HasDivisor ls) }
{
    let mut out = Items::new(alloc);
    for m in rest {
        out.append(shifted(alloc, x, z, l, m)?)?;
    }
    Ok(out)
}

/// The rule at the divisibility l after its charge, with the other literals of the clause.
#[tactic(auto, using(base_budget::proofs::Charging::working, crate::proofs::Steps::divisors))]
fn shift_by(
    alloc: Global,
    x: u32,
    rest: &[Literal],
    z: &Cofactors,
    l: &Literal,
) -> Result<Items<Clause>, StepFault>
    requires cofactor { IsDivisor z.now.g }
    requires divisors { All HasDivisor rest.now }
    ensures { Worked (shifted_beside x rest.now (bezout_of z.now) l.now) result }
{
    let shifted = all_shifted(alloc, x, z, l, rest)?;
    let t = l.term().without(x)?;
    let mut literals = alone(alloc, Literal::Div(z.g, t))?;
    literals.append(shifted)?;
    Ok(in_form(alloc, literals)?)
}

/// The coefficients of Bézout of the divisibility l.
fn own_coefficients(x: u32, l: &Literal) -> Cofactors
    requires { IsCongruence x l.now }
    ensures exact { bezout_of result ≡ bezout (coef_of (term_of l.now) x) (divisor_of l.now) }
    ensures divisor { IsDivisor result.g }
{
    coefficients(l.term().coef(x), divisor(l))
}

/// The rule of the only divisibility, at i, on a clause that is handed over: what it leaves is without the divisibility, x
/// counts its solutions, and it is true exactly where the clause is for some integer x.
#[tactic(auto, using(base_budget::proofs::Charging::charging))]
pub fn shift_rule(
    alloc: Global,
    c: Clause,
    x: u32,
    i: usize,
    purse: &mut Purse,
) -> Result<Items<Clause>, StepFault>
    requires { applies x c (Shift i) ≡ true }
    ensures work { Charged (rule x c (Shift i)) purse.old result purse.new }
    ensures exact { IfOk result (λ ds. (e : List ℤ) → IsMet (c ∷ []) x e ↔ IsMet ds x e) }
    ensures nearer { IfOk result (λ ds. All (λ d. measure x d < measure x c) ds) }
{
    purse.step(whole_charge(alloc, &c)?)?;
    let mut rest = c.into_literals();
    let l = rest.remove(i);
    let z = own_coefficients(x, &l);
    shift_by(alloc, x, rest.as_slice(), &z, &l)
}
