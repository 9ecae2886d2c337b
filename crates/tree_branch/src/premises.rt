// The constraints of a rule's premises, put together.

ghost use Rattle.clause_set.specs.Dnfs.{top};
ghost use Rattle.proof_tree.specs.Rules.{conjoined, first_given};
ghost use Rattle.base_budget.specs.Work.{Charged};
ghost use Rattle.std.specs.Prelude.{◌≡◌};

use base_budget::{Purse, StepFault};
use clause_set::{Dnf, and};
use sqlite_items::Items;
use std::alloc::Global;

/// The first constraint, taken out of them; false where there is none.
pub fn first(alloc: Global, ds: Items<Dnf>) -> Dnf
    ensures { result ≡ first_given ds }
{
    let mut all = ds;
    if all.is_empty() {
        Dnf::bottom(alloc)
    } else {
        all.remove(0)
    }
}

/// The conjunction of the constraints.
#[tactic(auto, using(base_budget::proofs::Charging::looping))]
pub fn conjoined(alloc: Global, ds: &[Dnf], purse: &mut Purse) -> Result<Dnf, StepFault>
    ensures { Charged (conjoined ds.now top) purse.old result purse.new }
{
    let mut all = Dnf::top(alloc)?;
    for d in ds {
        all = and(alloc, &all, d, purse)?;
    }
    Ok(all)
}
