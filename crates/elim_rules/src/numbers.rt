// Numbers that a rule computes once it is known that they are in the range, and the coefficients of Bézout.

ghost use Rattle.clause_set.specs.Bezout.{bezout};
ghost use Rattle.clause_set.specs.Divisibilities.{with_name};
ghost use Rattle.clause_set.specs.Literals.{IsDivisor};
ghost use Rattle.clause_set.specs.Names.{product};
ghost use Rattle.elim_rules.specs.Answers.{bezout_of};
ghost use Rattle.linear_term.specs.Linear.{mentions};
ghost use Rattle.linear_term.specs.Range.{InRange, stays};
ghost use Rattle.base_budget.specs.declared.fault.StepFault.TheVariants.{Memory};
ghost use Rattle.std.specs.Prelude.{◌≡◌, ◌*ℤ◌, ◌<ℤ◌, false, IfErr, IfOk, neg_ℤ, pos, true};

use base_budget::StepFault;
use linear_term::{Place, Term, bezout};
use std::alloc::Global;

/// The product m·a, as a number that may leave the range.
pub(crate) fn times(m: i128, a: i128) -> Place
    ensures { result ≡ product m a }
{
    Place { m, a, n: 0, b: 0 }
}

/// The product m·a, which is in the range.
#[tactic(auto, using(crate::proofs::Products::products))]
pub(crate) fn multiplied(m: i128, a: i128) -> i128
    requires { stays (product m a) ≡ true }
    ensures exact { result ≡ m *ℤ a }
    ensures range { InRange result }
{
    m * a
}

/// −k.
pub(crate) fn opposite(k: i128) -> i128
    requires { InRange k }
    ensures exact { result ≡ neg_ℤ k }
    ensures range { InRange result }
{
    -k
}

/// g = p·a + q·b, the greatest common divisor of a and b, with the least p that is not negative.
#[derive(Clone, Copy)]
pub struct Cofactors {
    pub g: i128,
    pub p: i128,
    pub q: i128,
}

/// The coefficients of Bézout of positive a and b.
#[tactic(auto, using(crate::proofs::Products::products))]
pub(crate) fn coefficients(a: i128, b: i128) -> Cofactors
    requires a_positive { pos 0 <ℤ a }
    requires b_positive { pos 0 <ℤ b }
    requires a_in_range { InRange a }
    requires b_in_range { InRange b }
    ensures exact { bezout_of result ≡ bezout a b }
    ensures divisor { IsDivisor result.g }
{
    let (g, p, q) = bezout(a, b);
    Cofactors { g, p, q }
}

/// t + k·x for a term t without x: its numbers are those of t, and k.
pub(crate) fn with_name(alloc: Global, x: u32, k: i128, t: &Term) -> Result<Term, StepFault>
    requires k_in_range { InRange k }
    requires without { mentions t.now x ≡ false }
    ensures exact { IfOk result (λ u. u ≡ with_name x k t.now) }
    ensures memory { IfErr result (λ e. e ≡ Memory) }
{
    t.know_normal();
    Ok(Term::combine(1, t, k, &Term::name(alloc, x))?)
}
