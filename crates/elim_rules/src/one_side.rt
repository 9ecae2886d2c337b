// Bounds of a name on one side alone: some value meets them all, so what is left are the literals without the name.

ghost use Rattle.clause_set.specs.Shadows.{one_sided};
ghost use Rattle.base_budget.specs.Work.{Charged};

use super::sides::{Side, literals_on};
use base_budget::{Purse, StepFault};
use clause_set::Clause;
use elim_steps::{in_form, whole_charge};
use sqlite_items::Items;
use std::alloc::Global;

/// What is left of a clause whose bounds of x are on one side: the literals without x. Refused with Steps where the charge
/// passes the budget, and then nothing is spent.
#[tactic(auto, using(base_budget::proofs::Charging::charging), unfolding(clause_set::specs::Shadows::one_sided))]
pub fn one_sided(
    alloc: Global,
    c: &Clause,
    x: u32,
    purse: &mut Purse,
) -> Result<Items<Clause>, StepFault>
    ensures { Charged (one_sided x c.now) purse.old result purse.new }
{
    purse.step(whole_charge(alloc, c)?)?;
    c.know_clause();
    let others = literals_on(alloc, c.literals(), x, Side::Without)?;
    Ok(in_form(alloc, others)?)
}
