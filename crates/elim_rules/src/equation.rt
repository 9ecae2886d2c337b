// The rule of an equation a·x + s = 0. It holds for some integer x exactly where |a| divides s, and then |a| times a
// literal's term b·x + t is |a|·t − σ·b·s with the sign σ of a, so each other literal is multiplied by |a| and x is gone.

ghost use Rattle.clause_set.specs.Equations.{sign_of, size_of, solved, solved_or_kept, solved_term};
ghost use Rattle.clause_set.specs.Literals.{HasDivisor, IsDivisor};
ghost use Rattle.clause_set.specs.Met.{IsMet};
ghost use Rattle.clause_set.specs.Names.{coefficient, has, product};
ghost use Rattle.clause_set.specs.Rules.{applies, measure, rule};
ghost use Rattle.clause_set.specs.declared.literal.Literal.TheVariants.{Div, Eq, Geq, NDiv};
ghost use Rattle.elim_rules.specs.Solutions.{HasCoefficient, solved_beside};
ghost use Rattle.linear_term.specs.Linear.{coef_of, without};
ghost use Rattle.linear_term.specs.Range.{InRange};
ghost use Rattle.base_budget.specs.Trace.{compute, each};
ghost use Rattle.base_budget.specs.Work.{Charged, Worked};
ghost use Rattle.base_budget.specs.declared.log.Entry.TheVariants.{Equation};
ghost use Rattle.std.specs.List.{list_any};
ghost use Rattle.std.specs.Prelude.{◌≡◌, ◌≢◌, ◌<◌, ◌↔◌, ◌*ℤ◌, ℤ, List, false, neg_ℤ, pos, [], ◌∷◌, All, IfErr, IfOk, OnOk, Ok, Err, true};

use super::numbers::{multiplied, times};
use base_budget::{Purse, StepFault};
use clause_set::{Clause, Literal};
use elim_steps::{alone, combining, computing, in_form, mentions, whole_charge};
use linear_term::{Memory, Term};
use sqlite_items::Items;
use std::alloc::Global;

/// The x with a·x + s = 0, for an a in the range that is not 0 and a term s without x.
#[derive(Drop)]
pub struct Solution {
    pub x: u32,
    pub a: i128,
    pub s: Term,
}

/// The equation t = 0 for x.
fn solved_for(x: u32, t: &Term) -> Result<Solution, Memory>
    requires { coef_of t.now x ≢ pos 0 }
    ensures solution { IfOk result HasCoefficient }
    ensures name { IfOk result (λ q. q.x ≡ x) }
    ensures coefficient { IfOk result (λ q. q.a ≡ coef_of t.now x) }
    ensures rest { IfOk result (λ q. q.s ≡ without t.now x) }
{
    Ok(Solution {
        x,
        a: t.coef(x),
        s: t.without(x)?,
    })
}

/// −σ·b with the sign σ of a.
#[tactic(auto, using(crate::proofs::Steps::signs))]
fn opposed(q: &Solution, b: i128) -> i128
    requires { InRange b }
    ensures exact { result ≡ neg_ℤ (sign_of q.now.a *ℤ b) }
    ensures range { InRange result }
{
    if q.a < 0 { b } else { -b }
}

/// |a|.
fn size(q: &Solution) -> i128
    requires solution { HasCoefficient q.now }
    ensures exact { result ≡ size_of q.now.a }
    ensures divisor { IsDivisor result }
{
    q.a.abs()
}

/// The divisor d·|a|, which is in the range or Overflow.
#[tactic(auto, using(crate::proofs::Products::positive_products))]
fn scaled_divisor(d: i128, q: &Solution) -> Result<i128, StepFault>
    requires divisor { IsDivisor d }
    requires solution { HasCoefficient q.now }
    ensures exact { IfOk result (λ k. k ≡ d *ℤ size_of q.now.a) }
    ensures divisor { IfOk result IsDivisor }
    ensures stays { OnOk result (Worked (compute (product d (size_of q.now.a) ∷ [])) (Ok (tt {0}))) }
    ensures leaves { IfErr result (λ e. Worked (compute (product d (size_of q.now.a) ∷ [])) (Err e)) }
{
    let n = size(q);
    computing(&[times(d, n)])?;
    Ok(multiplied(d, n))
}

/// |a|·t − σ·b·s for a literal's term b·x + t.
#[tactic(auto, using(base_budget::proofs::Charging::working))]
fn solved_term(q: &Solution, u: &Term) -> Result<Term, StepFault>
    requires solution { HasCoefficient q.now }
    ensures { Worked (solved_term q.now.x q.now.a q.now.s u.now) result }
{
    let rest = u.without(q.x)?;
    combining(size(q), &rest, opposed(q, u.coef(q.x)), &q.s)
}

#[tactic(auto, using(base_budget::proofs::Charging::working, crate::proofs::Steps::divisors))]
fn solved_equality(alloc: Global, q: &Solution, u: &Term) -> Result<Items<Literal>, StepFault>
    requires solution { HasCoefficient q.now }
    ensures work { Worked (solved q.now.x q.now.a q.now.s (Eq u.now)) result }
    ensures divisors { IfOk result (λ ls. All HasDivisor ls) }
{
    let t = solved_term(q, u)?;
    Ok(alone(alloc, Literal::Eq(t))?)
}

#[tactic(auto, using(base_budget::proofs::Charging::working, crate::proofs::Steps::divisors))]
fn solved_bound(alloc: Global, q: &Solution, u: &Term) -> Result<Items<Literal>, StepFault>
    requires solution { HasCoefficient q.now }
    ensures work { Worked (solved q.now.x q.now.a q.now.s (Geq u.now)) result }
    ensures divisors { IfOk result (λ ls. All HasDivisor ls) }
{
    let t = solved_term(q, u)?;
    Ok(alone(alloc, Literal::Geq(t))?)
}

#[tactic(auto, using(base_budget::proofs::Charging::working, crate::proofs::Steps::divisors))]
fn solved_divisibility(
    alloc: Global,
    q: &Solution,
    d: i128,
    u: &Term,
) -> Result<Items<Literal>, StepFault>
    requires solution { HasCoefficient q.now }
    requires divisor { IsDivisor d }
    ensures work { Worked (solved q.now.x q.now.a q.now.s (Div d u.now)) result }
    ensures divisors { IfOk result (λ ls. All HasDivisor ls) }
{
    let k = scaled_divisor(d, q)?;
    let t = solved_term(q, u)?;
    Ok(alone(alloc, Literal::Div(k, t))?)
}

#[tactic(auto, using(base_budget::proofs::Charging::working, crate::proofs::Steps::divisors))]
fn solved_indivisibility(
    alloc: Global,
    q: &Solution,
    d: i128,
    u: &Term,
) -> Result<Items<Literal>, StepFault>
    requires solution { HasCoefficient q.now }
    requires divisor { IsDivisor d }
    ensures work { Worked (solved q.now.x q.now.a q.now.s (NDiv d u.now)) result }
    ensures divisors { IfOk result (λ ls. All HasDivisor ls) }
{
    let k = scaled_divisor(d, q)?;
    let t = solved_term(q, u)?;
    Ok(alone(alloc, Literal::NDiv(k, t))?)
}

/// A literal with x, multiplied by |a|.
fn solved(alloc: Global, q: &Solution, l: &Literal) -> Result<Items<Literal>, StepFault>
    requires solution { HasCoefficient q.now }
    requires divisor { HasDivisor l.now }
    ensures work { Worked (solved q.now.x q.now.a q.now.s l.now) result }
    ensures divisors { IfOk result (λ ls. All HasDivisor ls) }
{
    match l {
        Literal::Eq(u) => solved_equality(alloc, q, u),
        Literal::Geq(u) => solved_bound(alloc, q, u),
        Literal::Div(d, u) => solved_divisibility(alloc, q, *d, u),
        Literal::NDiv(d, u) => solved_indivisibility(alloc, q, *d, u),
    }
}

#[tactic(auto, using(base_budget::proofs::Charging::working, crate::proofs::Steps::divisors))]
fn solved_or_kept(alloc: Global, q: &Solution, l: &Literal) -> Result<Items<Literal>, StepFault>
    requires solution { HasCoefficient q.now }
    requires divisor { HasDivisor l.now }
    ensures work { Worked (solved_or_kept q.now.x q.now.a q.now.s l.now) result }
    ensures divisors { IfOk result (λ ls. All HasDivisor ls) }
{
    if mentions(l.term(), q.x) {
        solved(alloc, q, l)
    } else {
        Ok(alone(alloc, l.copy()?)?)
    }
}

/// The other literals, without x.
#[tactic(auto, using(base_budget::proofs::Charging::leaving))]
fn all_solved(alloc: Global, q: &Solution, rest: &[Literal]) -> Result<Items<Literal>, StepFault>
    requires solution { HasCoefficient q.now }
    requires divisors { All HasDivisor rest.now }
    ensures work { Worked (each (solved_or_kept q.now.x q.now.a q.now.s) rest.now []) result }
    ensures divisors { IfOk result (λ ls. All HasDivisor ls) }
{
    let mut out = Items::new(alloc);
    for l in rest {
        out.append(solved_or_kept(alloc, q, l)?)?;
    }
    Ok(out)
}

/// The rule at the equation l after its charge, with the other literals of the clause.
#[tactic(auto, using(base_budget::proofs::Charging::working, crate::proofs::Steps::divisors))]
fn by_literal(
    alloc: Global,
    x: u32,
    rest: &[Literal],
    l: &Literal,
) -> Result<Items<Clause>, StepFault>
    requires not_zero { coefficient x l.now ≢ pos 0 }
    requires divisors { All HasDivisor rest.now }
    ensures { Worked (solved_beside x rest.now l.now) result }
{
    let q = solved_for(x, l.term())?;
    let solved = all_solved(alloc, &q, rest)?;
    let mut literals = alone(alloc, Literal::Div(size(&q), q.s))?;
    literals.append(solved)?;
    Ok(in_form(alloc, literals)?)
}

/// The rule of the equation at i, on a clause that is handed over: what it leaves is without x, and true exactly where the
/// clause is for some integer x.
#[tactic(auto, using(base_budget::proofs::Charging::charging))]
pub fn equation_rule(
    alloc: Global,
    c: Clause,
    x: u32,
    i: usize,
    purse: &mut Purse,
) -> Result<Items<Clause>, StepFault>
    requires { applies x c (Equation i) ≡ true }
    ensures work { Charged (rule x c (Equation i)) purse.old result purse.new }
    ensures exact { IfOk result (λ ds. (e : List ℤ) → IsMet (c ∷ []) x e ↔ IsMet ds x e) }
    ensures free { IfOk result (λ ds. All (λ d. list_any (has x) d ≡ false) ds) }
    ensures nearer { IfOk result (λ ds. All (λ d. measure x d < measure x c) ds) }
{
    purse.step(whole_charge(alloc, &c)?)?;
    let mut rest = c.into_literals();
    let l = rest.remove(i);
    by_literal(alloc, x, rest.as_slice(), &l)
}
