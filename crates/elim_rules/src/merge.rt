// The rule of two divisibilities with x, of a1·x + t1 by d1 and of a2·x + t2 by d2. With (g, p, q) = bezout(a1·d2, a2·d1)
// they hold exactly where d1·d2 divides g·x + p·d2·t1 + q·d1·t2, and g divides a2·t1 − a1·t2, which is without x.

ghost use Rattle.clause_set.specs.Bezout.{bezout};
ghost use Rattle.clause_set.specs.Formed.{IsNormalized};
ghost use Rattle.clause_set.specs.Divisibilities.{merged_by as merged_by_work, with_name};
ghost use Rattle.clause_set.specs.Literals.{HasDivisor, IsDivisor, term_of};
ghost use Rattle.clause_set.specs.Met.{IsMet};
ghost use Rattle.clause_set.specs.Names.{is_equation, product};
ghost use Rattle.clause_set.specs.Order.{divisor_of};
ghost use Rattle.clause_set.specs.Rules.{applies, measure, rule};
ghost use Rattle.clause_set.specs.declared.literal.Literal.TheVariants.{Div};
ghost use Rattle.elim_rules.specs.Answers.{bezout_of};
ghost use Rattle.elim_rules.specs.Congruences.{IsCongruence, merge_numbers, merged_beside};
ghost use Rattle.linear_term.specs.Linear.{coef_of, mentions};
ghost use Rattle.linear_term.specs.Range.{InRange, stays};
ghost use Rattle.base_budget.specs.Trace.{compute};
ghost use Rattle.base_budget.specs.Work.{Charged, Worked};
ghost use Rattle.base_budget.specs.declared.fault.StepFault.TheVariants.{Memory};
ghost use Rattle.base_budget.specs.declared.log.Entry.TheVariants.{Merge};
ghost use Rattle.std.specs.List.{list_any};
ghost use Rattle.std.specs.Prelude.{◌≡◌, ◌<◌, ◌<ℤ◌, ◌*ℤ◌, ◌↔◌, ℤ, List, [], ◌∷◌, All, false, IfErr, IfOk, OnOk, Ok, Err, pos, true};

use super::numbers::{Cofactors, coefficients, multiplied, opposite, times, with_name};
use super::parts::divisor;
use base_budget::{Purse, StepFault};
use clause_set::{Clause, Literal};
use elim_steps::{alone, combining, computing, in_form_with, whole_charge};
use linear_term::Term;
use sqlite_items::Items;
use std::alloc::Global;

/// (g, p, q) = bezout(a1·d2, a2·d1), where a1·d2, a2·d1 and d1·d2 are in the range.
#[tactic(auto, using(crate::proofs::Merging::merging))]
fn joint_coefficients(x: u32, l: &Literal, m: &Literal) -> Result<Cofactors, StepFault>
    requires first { IsCongruence x l.now }
    requires second { IsCongruence x m.now }
    ensures exact { IfOk result (λ z. bezout_of z ≡ bezout (coef_of (term_of l.now) x *ℤ divisor_of m.now) (coef_of (term_of m.now) x *ℤ divisor_of l.now)) }
    ensures divisor { IfOk result (λ z. IsDivisor z.g) }
    ensures product { OnOk result (stays (product (divisor_of l.now) (divisor_of m.now)) ≡ true) }
    ensures stays { OnOk result (Worked (compute (merge_numbers (coef_of (term_of l.now) x) (divisor_of l.now) (coef_of (term_of m.now) x) (divisor_of m.now))) (Ok (tt {0}))) }
    ensures leaves { IfErr result (λ e. Worked (compute (merge_numbers (coef_of (term_of l.now) x) (divisor_of l.now) (coef_of (term_of m.now) x) (divisor_of m.now))) (Err e)) }
{
    let d1 = divisor(l);
    let d2 = divisor(m);
    let a1 = l.term().coef(x);
    let a2 = m.term().coef(x);
    computing(&[times(a1, d2), times(a2, d1), times(d1, d2)])?;
    Ok(coefficients(multiplied(a1, d2), multiplied(a2, d1)))
}

/// d divides g·x + v, and g divides w.
#[tactic(auto, using(crate::proofs::Steps::divisors))]
fn joined(
    alloc: Global,
    x: u32,
    z: &Cofactors,
    d: i128,
    v: &Term,
    w: Term,
) -> Result<Items<Literal>, StepFault>
    requires divisor { IsDivisor d }
    requires cofactor { IsDivisor z.now.g }
    requires without { mentions v.now x ≡ false }
    ensures exact { IfOk result (λ ls. ls ≡ Div d (with_name x z.now.g v.now) ∷ Div z.now.g w ∷ []) }
    ensures divisors { IfOk result (λ ls. All HasDivisor ls) }
    ensures memory { IfErr result (λ e. e ≡ Memory) }
{
    let u = with_name(alloc, x, z.g, v)?;
    let mut literals = alone(alloc, Literal::Div(d, u))?;
    literals.push(Literal::Div(z.g, w))?;
    Ok(literals)
}

/// The two divisibilities as one with x and one without it, and the rest.
#[tactic(auto, using(base_budget::proofs::Charging::working, crate::proofs::Merging::merging, crate::proofs::Named::naming))]
fn merged_by(
    alloc: Global,
    x: u32,
    rest: Items<Literal>,
    z: &Cofactors,
    l: &Literal,
    m: &Literal,
) -> Result<Items<Clause>, StepFault>
    requires first { IsCongruence x l.now }
    requires second { IsCongruence x m.now }
    requires product { stays (product (divisor_of l.now) (divisor_of m.now)) ≡ true }
    requires cofactor { IsDivisor z.now.g }
    requires normalized { All IsNormalized rest }
    ensures { Worked (merged_by_work x rest (bezout_of z.now) (divisor_of l.now) (term_of l.now) (divisor_of m.now) (term_of m.now)) result }
{
    let d1 = divisor(l);
    let d2 = divisor(m);
    computing(&[times(z.p, d2), times(z.q, d1)])?;
    let s = l.term().without(x)?;
    let t = m.term().without(x)?;
    let v = combining(multiplied(z.p, d2), &s, multiplied(z.q, d1), &t)?;
    let w = combining(m.term().coef(x), &s, opposite(l.term().coef(x)), &t)?;
    let new = joined(alloc, x, z, multiplied(d1, d2), &v, w)?;
    Ok(in_form_with(alloc, rest, new)?)
}

/// The rule at the divisibilities l and m after its charge, with the other literals of the clause.
#[tactic(auto, using(base_budget::proofs::Charging::working))]
fn merged(
    alloc: Global,
    x: u32,
    rest: Items<Literal>,
    l: &Literal,
    m: &Literal,
) -> Result<Items<Clause>, StepFault>
    requires first { IsCongruence x l.now }
    requires second { IsCongruence x m.now }
    requires normalized { All IsNormalized rest }
    ensures { Worked (merged_beside x rest l.now m.now) result }
{
    let z = joint_coefficients(x, l, m)?;
    merged_by(alloc, x, rest, &z, l, m)
}

/// The rule of the divisibilities at i and j on a clause that is handed over: what it leaves has one divisibility of x in
/// place of both, and is true at the same integers.
#[tactic(auto, using(base_budget::proofs::Charging::charging))]
pub fn merge_rule(
    alloc: Global,
    c: Clause,
    x: u32,
    i: usize,
    j: usize,
    purse: &mut Purse,
) -> Result<Items<Clause>, StepFault>
    requires { applies x c (Merge i j) ≡ true }
    ensures work { Charged (rule x c (Merge i j)) purse.old result purse.new }
    ensures exact { IfOk result (λ ds. (e : List ℤ) → IsMet (c ∷ []) x e ↔ IsMet ds x e) }
    ensures nearer { list_any (is_equation x) c ≡ false → IfOk result (λ ds. All (λ d. measure x d < measure x c) ds) }
{
    purse.step(whole_charge(alloc, &c)?)?;
    let mut rest = c.into_literals();
    let m = rest.remove(j);
    let l = rest.remove(i);
    merged(alloc, x, rest, &l, &m)
}
