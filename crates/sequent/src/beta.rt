// The rule beta: a conjunction makes way for one of its members, in a premise for each.
//
//     C  ⊢  Γ, A      ..      D  ⊢  Γ, B
//     ---------------------------------- beta
//          C & .. & D  ⊢  Γ, A & .. & B

ghost use Rattle.std.specs.Prelude.{◌≡◌, ◌≤◌, ◌<◌, ◌-◌, ◌^◌, length, IfOk, Some};
ghost use Rattle.std.specs.List.{slice_get};
ghost use Rattle.sequent.specs.Rules.{new_members, one_each};
ghost use Rattle.formula.specs.Shifts.{AreBelow};
ghost use Rattle.formula.specs.Tree.{forms_of};
ghost use Rattle.sequent.specs.Views.{added_members, members_of};

use crate::added::Added;
use crate::alpha::new_member;
use formula::Core;
use linear_term::Memory;
use sqlite_items::at;
use std::alloc::Global;

/// Member number i of a conjunction, alone.
#[tactic(auto, using(crate::proofs::Stepping::beta_at, crate::proofs::Stepping::below_at))]
pub fn beta(
    alloc: Global,
    formulas: &[Core],
    i: u32,
    over: u32,
    count: u32,
) -> Result<Added, Memory>
    requires over { over ≤ count }
    requires below { AreBelow (2 ^ 32 - (count - over)) (forms_of formulas.now) }
    ensures { IfOk result (λ ms. slice_get (one_each (new_members over count (forms_of formulas.now))) i ≡ Some (members_of (added_members ms))) }
{
    match at(formulas, i as usize) {
        Some(f) => Ok(Added::One(new_member(alloc, f, over, count)?)),
        None => Err(Memory),
    }
}
