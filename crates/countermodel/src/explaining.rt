// A counterexample from the open tree of an encoded problem.

ghost use Rattle.countermodel.specs.Explaining.{at_leaf, explained_as, explaining};
ghost use Rattle.countermodel.specs.Probes.{probe_values};
ghost use Rattle.form_encoding.specs.Problems.{problem_root};
ghost use Rattle.base_limits.specs.Limits.{branch_limit};
ghost use Rattle.linear_term.specs.Range.{InRange};
ghost use Rattle.model_trees.specs.Levels.{IsWithinLevels};
ghost use Rattle.model_trees.specs.Open.{IsSaturatedTree};
ghost use Rattle.countermodel.specs.Doing.{DoesWork};
ghost use Rattle.countermodel.specs.Stopped.{stop_of};
ghost use Rattle.pri_typing.specs.WellFormed.{IsWellFormed};
ghost use Rattle.pri_problem.specs.Encoded.{IsEncoded};
ghost use Rattle.proof_tree.specs.Views.{proof_of};
ghost use Rattle.base_budget.specs.Work.{Worked};
ghost use Rattle.model_runs.specs.Refuting.{IsCounterexample, universals_of};
ghost use Rattle.std.specs.List.{AllByRecursion};
ghost use Rattle.std.specs.Prelude.{◌≡◌, ◌<◌, ◌≤◌, ◌^◌, ◌+◌, IfOk, length, Some};

use crate::rows::table_at;
use crate::walking::{Stop, walk};
use base_budget::{Purse, StepFault};
use base_limits::BRANCH_LIMIT;
use form_typed::Table;
use function_encoding::Encoded;
use linear_term::Memory;
use pri_typing::Problem;
use proof_tree::Tree;
use sequent::start;
use sqlite_items::Items;
use std::alloc::Global;

/// A finite interpretation, and values of the universal constants, at which a problem's formula is false.
#[derive(Debug, Drop)]
pub struct Counterexample {
    pub table: Table,
    /// In the order of the problem's universal constants.
    pub universals: Items<i128>,
}

/// Of these integers k, after the first m.
fn behind(alloc: Global, values: &[i128], m: usize, k: usize) -> Result<Items<i128>, Memory>
    requires { m + k ≤ length values.now }
    ensures { IfOk result (λ us. us ≡ universals_of m k values.now) }
{
    Ok(Items::from_slice(alloc, &values[m..m + k])?)
}

/// The counterexample at the leaf where a walk ends.
fn at_leaf(alloc: Global, p: &Problem, stop: &Stop) -> Result<Counterexample, StepFault>
    requires values { AllByRecursion InRange stop.now.values }
    requires many { length p.now.existentials + length p.now.universals ≤ length stop.now.values }
    ensures { Worked (at_leaf p.now (stop_of stop.now)) (explained_as result) }
{
    let table = table_at(alloc, stop.values.as_slice(), stop.members.as_slice())?;
    let universals = behind(
        alloc,
        stop.values.as_slice(),
        p.existentials.len(),
        p.universals.len(),
    )?;
    Ok(Counterexample { table, universals })
}

/// A finite table and values of the universal constants that make the problem's formula false at the probe values of its
/// existential constants: what the walk through the open tree of its encoding finds, with which a search ended saturated.
///
/// Refused with Steps exactly where a charge of the walk passes the budget, and else with Overflow exactly where a number that
/// the walk or its table computes leaves the range, which it names.
pub fn explain(
    alloc: Global,
    p: &Problem,
    e: &Encoded,
    t: &Tree,
    at: &[i128],
    purse: &mut Purse,
) -> Result<Counterexample, StepFault>
    requires formed { IsWellFormed p.now }
    requires encoded { IsEncoded p.now e.now }
    requires saturated { IsSaturatedTree (problem_root p.now).value (length p.now.existentials) (proof_of t.now.root) }
    requires levels { IsWithinLevels branch_limit (proof_of t.now.root) }
    requires values { probe_values p.now.existential_types ≡ Some at.now }
    requires budget { purse.old.budget < 2 ^ 32 }
    ensures work { DoesWork (explaining p.now (proof_of t.now.root) at.now) purse.old (explained_as result) purse.new }
    ensures is { IfOk result (λ c. IsCounterexample p.now at.now (c.table, c.universals)) }
{
    let s = start(alloc, &e.root, e.constants)?;
    let values = Items::from_slice(alloc, at)?;
    match walk(alloc, s, &t.root, BRANCH_LIMIT, values, purse)? {
        Some(stop) => at_leaf(alloc, p, &stop),
        None => unreachable!(),
    }
}
