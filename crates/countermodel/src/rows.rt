// The rows that the members of a leaf ask for.

ghost use Rattle.formula.specs.Tree.{form};
ghost use Rattle.linear_term.specs.Range.{InRange};
ghost use Rattle.base_budget.specs.Trace.{each};
ghost use Rattle.base_budget.specs.Work.{Worked};
ghost use Rattle.std.specs.List.{AllByRecursion};
ghost use Rattle.std.specs.Prelude.{◌≡◌, ◌∷◌, [], IfOk};
ghost use Rattle.model_trees.specs.Rows as rows;
ghost use Rattle.sequent.specs.Views.{members_of};

use super::evaluating::{all_evaluated, evaluated};
use super::sorting::sorted;
use base_budget::StepFault;
use form_typed::{Table, TruthRow, ValueRow};
use formula::Core;
use linear_term::{Memory, Term};
use sequent::Member;
use sqlite_items::Items;
use std::alloc::Global;

/// One row alone.
fn alone<T: Drop>(alloc: Global, row: T) -> Result<Items<T>, Memory>
    ensures { IfOk result (λ rows. rows ≡ row ∷ []) }
{
    let mut out = Items::new(alloc);
    out.push(row)?;
    Ok(out)
}

/// The predicate with this number is true at the values of the terms.
#[tactic(auto, using(base_budget::proofs::Charging::working))]
fn asked_truth(alloc: Global, e: &[i128], p: u32, ts: &[Term]) -> Result<Items<TruthRow>, StepFault>
    requires { AllByRecursion InRange e.now }
    ensures { Worked (rows.asked_truth e.now p ts.now) result }
{
    let at = all_evaluated(alloc, e, ts)?;
    Ok(alone(alloc, TruthRow { id: p, at })?)
}

/// The function with this number has the value of the last term at the values of the others.
#[tactic(auto, using(base_budget::proofs::Charging::working))]
fn asked_value(
    alloc: Global,
    e: &[i128],
    f: u32,
    ts: &[Term],
    u: &Term,
) -> Result<Items<ValueRow>, StepFault>
    requires { AllByRecursion InRange e.now }
    ensures { Worked (rows.asked_value e.now f ts.now u.now) result }
{
    let at = all_evaluated(alloc, e, ts)?;
    let value = evaluated(e, u)?;
    Ok(alone(alloc, ValueRow { id: f, at, value })?)
}

/// The row that a formula asks for, if it is a negated predicate.
fn truth_row(alloc: Global, e: &[i128], f: &Core) -> Result<Items<TruthRow>, StepFault>
    requires { AllByRecursion InRange e.now }
    ensures { Worked (rows.truth_row e.now (form f.now)) result }
{
    match f {
        Core::NotPred(p, ts) => asked_truth(alloc, e, *p, ts.as_slice()),
        Core::Eq(_) => Ok(Items::new(alloc)),
        Core::Neq(_) => Ok(Items::new(alloc)),
        Core::Geq(_) => Ok(Items::new(alloc)),
        Core::Pred(_, _) => Ok(Items::new(alloc)),
        Core::NotFun(_, _, _) => Ok(Items::new(alloc)),
        Core::And(_) => Ok(Items::new(alloc)),
        Core::Or(_) => Ok(Items::new(alloc)),
        Core::Forall(_) => Ok(Items::new(alloc)),
        Core::Exists(_) => Ok(Items::new(alloc)),
    }
}

/// The row that a formula asks for, if it is a function's value.
fn value_row(alloc: Global, e: &[i128], f: &Core) -> Result<Items<ValueRow>, StepFault>
    requires { AllByRecursion InRange e.now }
    ensures { Worked (rows.value_row e.now (form f.now)) result }
{
    match f {
        Core::NotFun(g, ts, u) => asked_value(alloc, e, *g, ts.as_slice(), u),
        Core::Eq(_) => Ok(Items::new(alloc)),
        Core::Neq(_) => Ok(Items::new(alloc)),
        Core::Geq(_) => Ok(Items::new(alloc)),
        Core::Pred(_, _) => Ok(Items::new(alloc)),
        Core::NotPred(_, _) => Ok(Items::new(alloc)),
        Core::And(_) => Ok(Items::new(alloc)),
        Core::Or(_) => Ok(Items::new(alloc)),
        Core::Forall(_) => Ok(Items::new(alloc)),
        Core::Exists(_) => Ok(Items::new(alloc)),
    }
}

/// The rows of predicates that the members ask for, in the order of these.
pub fn truth_rows(
    alloc: Global,
    e: &[i128],
    members: &[Member],
) -> Result<Items<TruthRow>, StepFault>
    requires { AllByRecursion InRange e.now }
    ensures { Worked (each (λ m. rows.truth_row e.now m.formula) (members_of members.now) []) result }
{
    let mut out = Items::new(alloc);
    for m in members {
        out.append(truth_row(alloc, e, &m.formula)?)?;
    }
    Ok(out)
}

/// The rows of functions that the members ask for, in the order of these.
pub fn value_rows(
    alloc: Global,
    e: &[i128],
    members: &[Member],
) -> Result<Items<ValueRow>, StepFault>
    requires { AllByRecursion InRange e.now }
    ensures { Worked (each (λ m. rows.value_row e.now m.formula) (members_of members.now) []) result }
{
    let mut out = Items::new(alloc);
    for m in members {
        out.append(value_row(alloc, e, &m.formula)?)?;
    }
    Ok(out)
}

/// The table of a leaf with these members, at the values e: its rows are sorted, each once.
#[tactic(auto, using(base_budget::proofs::Charging::charging))]
pub fn table_at(alloc: Global, e: &[i128], members: &[Member]) -> Result<Table, StepFault>
    requires { AllByRecursion InRange e.now }
    ensures { Worked (rows.table_at (record { values = e.now; members = members_of members.now })) result }
{
    let truths = truth_rows(alloc, e, members)?;
    let values = value_rows(alloc, e, members)?;
    Ok(Table {
        truths: sorted(alloc, truths)?,
        values: sorted(alloc, values)?,
    })
}
