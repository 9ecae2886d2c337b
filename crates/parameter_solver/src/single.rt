// The candidates of a clause that speaks of one name alone and is not split: those of its equation, or of its bounds and
// its first divisibility.

ghost use Rattle.clause_set.specs.Bezout.{bezout};
ghost use Rattle.clause_set.specs.Literals.{HasDivisor, IsDivisor, term_of};
ghost use Rattle.clause_set.specs.Order.{divisor_of};
ghost use Rattle.linear_term.specs.Range.{InRange};
ghost use Rattle.parameter_solver.specs.Classes.{IsClass};
ghost use Rattle.base_budget.specs.Trace.{compute, just, next};
ghost use Rattle.base_budget.specs.Work.{Worked};
ghost use Rattle.solve_laws.specs.Candidates.{IsAlone, bounded, lower, root_at, solutions, two_between, upper};
ghost use Rattle.clause_set.specs.Names.{is_divisibility, is_equation, product};
ghost use Rattle.clause_set.specs.Rules.{passes};
ghost use Rattle.std.specs.Int.{int_rem_euclid};
ghost use Rattle.std.specs.Prelude.{◌≡◌, ◌<ℤ◌, ◌*ℤ◌, [], ◌∷◌, All, IfOk, IfSome, Some, neg_ℤ, pos, slice_get, true};

use super::numbers::{opposite, two_between};
use super::roots::root;
use base_budget::StepFault;
use clause_set::bounds::slack;
use clause_set::{Clause, Literal, copy_literals};
use elim_steps::is_divisibility;
use linear_term::{Place, bezout};
use sqlite_items::Items;
use std::alloc::Global;

/// The greatest lower bound of j.
pub fn lower(c: &Clause, j: u32) -> Option<i128>
    ensures exact { result ≡ lower j c.now }
    ensures range { IfSome result (λ k. InRange k) }
{
    match slack(c.literals(), &[(j, 1)]) {
        Some(k) => Some(opposite(k)),
        None => None,
    }
}

/// The least upper bound of j.
pub fn upper(c: &Clause, j: u32) -> Option<i128>
    ensures exact { result ≡ upper j c.now }
    ensures range { IfSome result (λ k. InRange k) }
{
    slack(c.literals(), &[(j, -1)])
}

/// −u·k modulo d, where u·b is 1 modulo d.
pub fn residue(b: i128, d: i128, k: i128) -> Result<i128, StepFault>
    requires positive { pos 0 <ℤ b }
    requires divisor { IsDivisor d }
    ensures work { Worked (next (compute (product (bezout b d).p k ∷ [])) (λ _. just (int_rem_euclid (neg_ℤ ((bezout b d).p *ℤ k)) d))) result }
    ensures class { IfOk result (λ r. IsClass d r) }
{
    let cofactors = bezout(b, d);
    let place = Place {
        m: cofactors.1,
        a: k,
        n: 0,
        b: 0,
    };
    let product = place.value()?;
    Ok(opposite(product).rem_euclid(d))
}

/// The two candidates between the bounds in the class of the divisibility l.
fn by_class(
    alloc: Global,
    l: &Literal,
    j: u32,
    lo: Option<i128>,
    hi: Option<i128>,
) -> Result<Items<i128>, StepFault>
    requires alone { IsAlone j l.now }
    requires divisor { HasDivisor l.now }
    requires divisibility { is_divisibility j l.now ≡ true }
    requires low { IfSome lo (λ k. InRange k) }
    requires high { IfSome hi (λ k. InRange k) }
    ensures work { Worked (next (solutions j (divisor_of l.now) (term_of l.now)) (λ z. two_between z.modulus z.residue lo hi)) result }
    ensures range { IfOk result (λ vs. All InRange vs) }
{
    let t = l.term();
    let d = l.divisor();
    let r = residue(t.coef(j), d, t.constant())?;
    two_between(alloc, d, r, lo, hi)
}

/// The candidates between the bounds of j, in the class of the first divisibility.
pub(crate) fn bounded(alloc: Global, c: &Clause, j: u32) -> Result<Items<i128>, StepFault>
    requires { All (IsAlone j) c.now }
    ensures work { Worked (bounded j c.now) result }
    ensures range { IfOk result (λ vs. All InRange vs) }
{
    c.know_clause();
    let lo = lower(c, j);
    let hi = upper(c, j);
    for l in c.literals() {
        if is_divisibility(l, j) {
            return by_class(alloc, l, j, lo, hi);
        }
    }
    two_between(alloc, 1, 0, lo, hi)
}

/// The candidate of the equation at i.
pub fn at_root(alloc: Global, c: &Clause, j: u32, i: usize) -> Result<Items<i128>, StepFault>
    requires alone { All (IsAlone j) c.now }
    requires equation { passes (is_equation j) (slice_get c.now i) ≡ true }
    ensures work { Worked (root_at j c.now (Some i)) result }
    ensures range { IfOk result (λ vs. All InRange vs) }
{
    c.know_clause();
    let v = opposite(c.get(i).term().constant());
    let mut rest = copy_literals(alloc, c.literals())?;
    rest.remove(i);
    root(alloc, rest.as_slice(), j, v)
}
