// The rule that comes first, performed, with its entry.

ghost use Rattle.clause_set.specs.Rules.{applies, first_rule, rule};
ghost use Rattle.omega_elim.specs.Projection.{with_entry};
ghost use Rattle.base_budget.specs.Work.{Charged};
ghost use Rattle.base_budget.specs.declared.log.Entry.TheVariants.{Apart, Equation, Merge, Shift};
ghost use Rattle.quant_elim.specs.First.{entry_of};
ghost use Rattle.std.specs.Prelude.{◌≡◌, ◌<◌, ◌^◌, Some, true};

use super::choice::Choice;
use base_budget::{Entry, Purse, StepFault};
use clause_set::Clause;
use elim_rules::{apart_rule, equation_rule, merge_rule, shift_rule};
use omega_elim::project;
use sqlite_items::Items;
use std::alloc::Global;

/// The rule of the equation at i, with its entry.
#[tactic(auto, using(base_budget::proofs::Charging::charging, elim_laws::proofs::Positions::equation_paid))]
fn equation_row(
    alloc: Global,
    c: Clause,
    x: u32,
    i: usize,
    purse: &mut Purse,
) -> Result<(Entry, Items<Clause>), StepFault>
    requires applies { applies x c (Equation i) ≡ true }
    requires budget { purse.old.budget < 2 ^ 32 }
    ensures { Charged (with_entry (Equation i) (rule x c (Equation i))) purse.old result purse.new }
{
    let clauses = equation_rule(alloc, c, x, i, purse)?;
    Ok((Entry::Equation(i as u32), clauses))
}

/// The rule of the negated divisibility at i, with its entry.
#[tactic(auto, using(base_budget::proofs::Charging::charging, elim_laws::proofs::Positions::apart_paid))]
fn apart_row(
    alloc: Global,
    c: Clause,
    x: u32,
    i: usize,
    purse: &mut Purse,
) -> Result<(Entry, Items<Clause>), StepFault>
    requires applies { applies x c (Apart i) ≡ true }
    requires budget { purse.old.budget < 2 ^ 32 }
    ensures { Charged (with_entry (Apart i) (rule x c (Apart i))) purse.old result purse.new }
{
    c.know_clause();
    let clauses = apart_rule(alloc, c, x, i, purse)?;
    Ok((Entry::Apart(i as u32), clauses))
}

/// The rule of the divisibilities at i and j, with its entry.
#[tactic(auto, using(base_budget::proofs::Charging::charging, elim_laws::proofs::Positions::merge_paid))]
fn merge_row(
    alloc: Global,
    c: Clause,
    x: u32,
    i: usize,
    j: usize,
    purse: &mut Purse,
) -> Result<(Entry, Items<Clause>), StepFault>
    requires applies { applies x c (Merge i j) ≡ true }
    requires budget { purse.old.budget < 2 ^ 32 }
    ensures { Charged (with_entry (Merge i j) (rule x c (Merge i j))) purse.old result purse.new }
{
    let clauses = merge_rule(alloc, c, x, i, j, purse)?;
    Ok((Entry::Merge(i as u32, j as u32), clauses))
}

/// The rule of the only divisibility, at i, with its entry.
#[tactic(auto, using(base_budget::proofs::Charging::charging, elim_laws::proofs::Positions::shift_paid))]
fn shift_row(
    alloc: Global,
    c: Clause,
    x: u32,
    i: usize,
    purse: &mut Purse,
) -> Result<(Entry, Items<Clause>), StepFault>
    requires applies { applies x c (Shift i) ≡ true }
    requires budget { purse.old.budget < 2 ^ 32 }
    ensures { Charged (with_entry (Shift i) (rule x c (Shift i))) purse.old result purse.new }
{
    let clauses = shift_rule(alloc, c, x, i, purse)?;
    Ok((Entry::Shift(i as u32), clauses))
}

/// The rule of the choice, which comes first for x in c, with its entry: the literals that it leaves as they are are moved.
#[tactic(auto, using(crate::proofs::Choices::chosen))]
pub(crate) fn row(
    alloc: Global,
    c: Clause,
    x: u32,
    choice: Choice,
    purse: &mut Purse,
) -> Result<(Entry, Items<Clause>), StepFault>
    requires first { first_rule x c ≡ Some (entry_of x c choice) }
    requires budget { purse.old.budget < 2 ^ 32 }
    ensures { Charged (with_entry (entry_of x c choice) (rule x c (entry_of x c choice))) purse.old result purse.new }
{
    match choice {
        Choice::Equation(i) => equation_row(alloc, c, x, i, purse),
        Choice::Apart(i) => apart_row(alloc, c, x, i, purse),
        Choice::Merge(i, j) => merge_row(alloc, c, x, i, j, purse),
        Choice::Shift(i) => shift_row(alloc, c, x, i, purse),
        Choice::Bounds => project(alloc, &c, x, purse),
    }
}
