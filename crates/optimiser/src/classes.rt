// Where a clause begins that has bounds on one name and at most one divisibility.

ghost use Rattle.clause_set.specs.Literals.{HasDivisor, term_of};
ghost use Rattle.clause_set.specs.Names.{is_divisibility};
ghost use Rattle.clause_set.specs.Order.{divisor_of};
ghost use Rattle.optimiser.specs.OneName.{floor_from, up_to_class};
ghost use Rattle.linear_term.specs.Range.{InRange};
ghost use Rattle.optimiser.specs.Ranges.{IsFloorInRange};
ghost use Rattle.parameter_solver.specs.Classes.{IsClass};
ghost use Rattle.base_budget.specs.Trace.{just, next};
ghost use Rattle.base_budget.specs.Work.{Worked};
ghost use Rattle.solve_laws.specs.Candidates.{IsAlone, class_of, computed, lower, solutions};
ghost use Rattle.std.specs.Int.{int_rem_euclid};
ghost use Rattle.std.specs.Prelude.{◌≡◌, ◌-ℤ◌, All, IfOk, Some, true};

use super::floors::floor_when;
use crate::floor::Floor;
use base_budget::StepFault;
use clause_set::{Clause, Literal};
use elim_steps::is_divisibility;
use linear_term::Place;
use parameter_solver::{is_at_most, lower, residue, upper};

/// How far the least number of the class from k on is from k. `r - k` itself may be too great for an i128.
#[tactic(auto, using(crate::proofs::Residues::remainders))]
fn way_up(m: i128, r: i128, k: i128) -> i128
    requires class { IsClass m r }
    requires range { InRange k }
    ensures exact { result ≡ int_rem_euclid (r -ℤ k) m }
    ensures range { InRange result }
{
    (r - k.rem_euclid(m)).rem_euclid(m)
}

/// A bound, and how far the next number of the class is.
fn up_to_class(m: i128, r: i128, lo: i128) -> Place
    requires class { IsClass m r }
    requires low { InRange lo }
    ensures { result ≡ up_to_class m r lo }
{
    let b = way_up(m, r, lo);
    Place {
        m: 1,
        a: lo,
        n: 1,
        b,
    }
}

/// The number m·a + n·b, which is in the range, or Overflow.
#[tactic(auto, using(parameter_solver::proofs::Computed::computing))]
fn computed(p: Place) -> Result<i128, StepFault>
    ensures work { Worked (computed p) result }
    ensures range { IfOk result InRange }
{
    Ok(p.value()?)
}

/// The class that the divisibility l allows: a modulus and a residue.
fn class_at(l: &Literal, j: u32) -> Result<(i128, i128), StepFault>
    requires alone { IsAlone j l.now }
    requires divisor { HasDivisor l.now }
    requires divisibility { is_divisibility j l.now ≡ true }
    ensures work { Worked (next (solutions j (divisor_of l.now) (term_of l.now)) (λ z. just (z.modulus, z.residue))) result }
    ensures class { IfOk result (λ z. IsClass z.0 z.1) }
{
    let t = l.term();
    let d = l.divisor();
    let r = residue(t.coef(j), d, t.constant())?;
    Ok((d, r))
}

/// The class that the first divisibility allows, all integers where there is none.
fn class_of(c: &Clause, j: u32) -> Result<(i128, i128), StepFault>
    requires { All (IsAlone j) c.now }
    ensures work { Worked (next (class_of j c.now) (λ z. just (z.modulus, z.residue))) result }
    ensures class { IfOk result (λ z. IsClass z.0 z.1) }
{
    c.know_clause();
    for l in c.literals() {
        if is_divisibility(l, j) {
            return class_at(l, j);
        }
    }
    Ok((1, 0))
}

/// The least number of the class from lo on, if the upper bound allows it.
fn floor_above(c: &Clause, j: u32, lo: i128) -> Result<Floor, StepFault>
    requires alone { All (IsAlone j) c.now }
    requires range { InRange lo }
    ensures work { Worked (floor_from j c.now (Some lo)) result }
    ensures range { IfOk result IsFloorInRange }
{
    let class = class_of(c, j)?;
    let v = computed(up_to_class(class.0, class.1, lo))?;
    Ok(floor_when(is_at_most(v, upper(c, j)), v))
}

/// The same from the lower bound on; without one, below each integer.
pub(crate) fn floor_from(c: &Clause, j: u32) -> Result<Floor, StepFault>
    requires { All (IsAlone j) c.now }
    ensures work { Worked (floor_from j c.now (lower j c.now)) result }
    ensures range { IfOk result IsFloorInRange }
{
    match lower(c, j) {
        None => Ok(Floor::Unbounded),
        Some(lo) => floor_above(c, j, lo),
    }
}
