// Values at which a pure formula is true, by elimination of its quantifiers (Pugh, The Omega test: a fast and practical integer
// programming algorithm for dependence analysis, 1992) and the values of the names that are left.

ghost use Rattle.std.specs.Prelude.{◌<◌, ◌^◌};

use base_budget::{ElimFault, Purse};
use cdcl_fuel::{Fault, Fuel};
use cdcl_models::{Decider, Solution, plain};
use clause_set::Dnf;
use formula::{Core, depth};
use parameter_solver::{Solved, is_over};
use quant_elim::eliminate;
use std::alloc::Global;

/// What one charge of an elimination costs.
const CHARGE: u64 = 2;

/// The greatest budget of one elimination.
const MOST: u64 = 1_000_000_000;

/// How many names there may be, and how deep a formula may be.
const DEEPEST: u32 = 1_000_000;

/// Decides pure formulas by elimination of quantifiers.
#[derive(Clone, Copy)]
pub struct Elimination {
    pub alloc: Global,
}

impl Decider for Elimination {
    fn solve(
        &mut self,
        f: &Core,
        names: u32,
        steps: u64,
        fuel: &mut Fuel,
    ) -> Result<Solution, Fault> {
        solve(self.alloc, f, names, steps, fuel)
    }
}

/// Values of the names below `names` at which the pure formula is true, with at most `budget` charges for each half of the work.
fn solve(
    alloc: Global,
    f: &Core,
    names: u32,
    budget: u64,
    fuel: &mut Fuel,
) -> Result<Solution, Fault> {
    match plain(f) {
        Some(true) => return Ok(Solution::Values(vec![in alloc; 0; names as usize]?)),
        Some(false) => return Ok(Solution::None),
        None => {}
    }
    let Some(d) = eliminated(alloc, f, names, budget, fuel)? else {
        return Ok(Solution::Cut);
    };
    if d.len() == 0 {
        return Ok(Solution::None);
    }
    values(alloc, &d, names, budget, fuel)
}

/// How many charges there may be, so that what they cost is in the budget of the search.
fn budget_of(budget: u64, fuel: &Fuel) -> u64
    ensures { result < 2 ^ 32 }
{
    budget.min(fuel.left() / CHARGE).min(MOST)
}

/// The disjunction of clauses that the formula is, None where its elimination is cut.
fn eliminated(
    alloc: Global,
    f: &Core,
    names: u32,
    budget: u64,
    fuel: &mut Fuel,
) -> Result<Option<Dnf>, Fault> {
    let levels = depth(f);
    if names > DEEPEST || levels > DEEPEST {
        return Ok(None);
    }
    let mut purse = Purse::new(budget_of(budget, fuel));
    let outcome = eliminate(alloc, f, names, &mut purse);
    fuel.spend(purse.spent().saturating_mul(CHARGE))?;
    match outcome {
        Ok((d, _log)) => Ok(Some(d)),
        Err(ElimFault::Memory) => Err(Fault::Memory),
        Err(_) => Ok(None),
    }
}

/// Values of the names at which the disjunction is true.
fn values(
    alloc: Global,
    d: &Dnf,
    names: u32,
    budget: u64,
    fuel: &mut Fuel,
) -> Result<Solution, Fault> {
    if !is_over(d, names) {
        return Ok(Solution::Cut);
    }
    let mut purse = Purse::new(budget_of(budget, fuel));
    let outcome = parameter_solver::solve(alloc, d, names, &mut purse);
    fuel.spend(purse.spent().saturating_mul(CHARGE))?;
    match outcome {
        Ok(Solved::Values(values)) => Ok(Solution::Values(Vec::from_slice(
            alloc,
            values.as_slice(),
        )?)),
        Ok(Solved::None(_)) => Ok(Solution::None),
        Err(ElimFault::Memory) => Err(Fault::Memory),
        Err(_) => Ok(Solution::Cut),
    }
}
