// A value put for a name, with its charge.

ghost use Rattle.clause_set.specs.Weight.{weight};
ghost use Rattle.linear_term.specs.Range.{InRange};
ghost use Rattle.base_budget.specs.Trace.{capped};
ghost use Rattle.base_budget.specs.Work.{Charged};
ghost use Rattle.solve_laws.specs.Solutions.{with_value};
ghost use Rattle.std.specs.Prelude.{◌≡◌, ◌+◌};

use base_budget::{Purse, StepFault};
use clause_set::weight::weight;
use clause_set::{Clause, Dnf};
use solve_values::valued_clauses;
use std::alloc::Global;

/// 1 and the weight of the clauses.
fn charge(cs: &[Clause]) -> u64
    ensures { result ≡ capped (1 + weight cs.now) }
{
    1u64.saturating_add(weight(cs))
}

/// The disjunction of the clauses where j is v.
#[tactic(auto, using(base_budget::proofs::Charging::charging))]
pub(crate) fn with_value(
    alloc: Global,
    cs: &[Clause],
    j: u32,
    v: i128,
    purse: &mut Purse,
) -> Result<Dnf, StepFault>
    requires { InRange v }
    ensures { Charged (with_value j v cs.now) purse.old result purse.new }
{
    purse.step(charge(cs))?;
    let clauses = valued_clauses(alloc, cs, j, v)?;
    Dnf::tidy(alloc, clauses, purse)
}
