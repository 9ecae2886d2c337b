// Values at which a constraint is false, found by solving.

ghost use Rattle.clause_set.specs.Formed.{IsFormed};
ghost use Rattle.linear_term.specs.Range.{InRange};
ghost use Rattle.std.specs.List.{AllByRecursion};
ghost use Rattle.std.specs.Prelude.{◌≡◌, ◌≤◌, ◌<◌, ◌^◌, All, length, List, Ok, Some, ℤ};
ghost use Rattle.countermodel.specs.Doing.{DoesWork, found_in};
ghost use Rattle.solve_laws.specs.Solutions.{IsGiven};
ghost use Rattle.model_trees.specs.Walk as w;

use super::clauses::read;
use base_budget::{ElimFault, Purse, StepFault};
use clause_set::{Literal, and, not};
use model_trees::point;
use parameter_solver::{Solved, solve};
use sqlite_items::Items;
use std::alloc::Global;

/// What solving answers, without its logs.
fn found_in(answer: Result<Solved, ElimFault>) -> Result<Option<Items<i128>>, StepFault>
    ensures { result ≡ found_in answer }
{
    match answer {
        Ok(Solved::Values(values)) => Ok(Some(values)),
        Ok(Solved::None(_)) => Ok(None),
        Err(ElimFault::Steps(_)) => Err(StepFault::Steps),
        Err(ElimFault::Overflow(_, place)) => Err(StepFault::Overflow(place)),
        Err(ElimFault::Memory) => Err(StepFault::Memory),
    }
}

/// The best values of the names at which the clauses are false, the first of them v, without what is known of them.
#[tactic(auto, using(base_budget::proofs::Following::following, crate::proofs::Forgetting::finding))]
fn searched(
    alloc: Global,
    names: u32,
    gives: &[Items<Literal>],
    v: &[i128],
    purse: &mut Purse,
) -> Result<Option<Items<i128>>, StepFault>
    requires given { IsGiven names gives.now }
    requires values { AllByRecursion InRange v.now }
    requires few { length v.now ≤ names }
    requires budget { purse.old.budget < 2 ^ 32 }
    ensures { DoesWork (w.denied names gives.now v.now) purse.old result purse.new }
{
    let d = read(alloc, gives)?;
    let wrong = not(alloc, &d, purse)?;
    let here = point(alloc, v)?;
    let both = and(alloc, &wrong, &here, purse)?;
    found_in(solve(alloc, &both, names, purse))
}

/// The best values of the names at which the clauses are false, the first of them v.
#[inline(never)]
pub fn denied(
    alloc: Global,
    names: u32,
    gives: &[Items<Literal>],
    v: &[i128],
    purse: &mut Purse,
) -> Result<Option<Items<i128>>, StepFault>
    requires given { IsGiven names gives.now }
    requires values { AllByRecursion InRange v.now }
    requires few { length v.now ≤ names }
    requires budget { purse.old.budget < 2 ^ 32 }
    ensures work { DoesWork (w.denied names gives.now v.now) purse.old result purse.new }
    ensures values { (u : List ℤ) → result ≡ Ok (Some u) → AllByRecursion InRange u }
    ensures many { (u : List ℤ) → result ≡ Ok (Some u) → length u ≡ names }
{
    searched(alloc, names, gives, v, purse)
}

/// The values v, if the clauses are true there.
#[tactic(auto, using(base_budget::proofs::Following::following, crate::proofs::Forgetting::finding))]
#[inline(never)]
pub fn affirmed(
    alloc: Global,
    names: u32,
    gives: &[Items<Literal>],
    v: &[i128],
    purse: &mut Purse,
) -> Result<Option<Items<i128>>, StepFault>
    requires given { IsGiven names gives.now }
    requires values { AllByRecursion InRange v.now }
    requires few { length v.now ≤ names }
    requires budget { purse.old.budget < 2 ^ 32 }
    ensures { DoesWork (w.affirmed names gives.now v.now) purse.old result purse.new }
{
    let d = read(alloc, gives)?;
    let here = point(alloc, v)?;
    let both = and(alloc, &d, &here, purse)?;
    found_in(solve(alloc, &both, names, purse))
}
