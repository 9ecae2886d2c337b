// The rule alpha: a disjunction makes way for its members.
//
//     C  ⊢  Γ, A, .., B
//     ------------------ alpha
//     C  ⊢  Γ, A | .. | B

ghost use Rattle.std.specs.Prelude.{◌≡◌, ◌≤◌, ◌-◌, ◌^◌, IfOk};
ghost use Rattle.sequent.specs.Rules.{new_members, brought};
ghost use Rattle.sequent.specs.Sequent as q;
ghost use Rattle.formula.specs.Shifts.{IsBelow, AreBelow};
ghost use Rattle.formula.specs.Tree.{form, forms_of};
ghost use Rattle.sequent.specs.Views.{added_members, member_of, members_of};

use crate::added::Added;
use crate::member::Member;
use formula::{Core, shift};
use linear_term::Memory;
use sqlite_items::Items;
use std::alloc::Global;

/// The formula, over the first constants, as a new member that is over `count`.
pub fn new_member(alloc: Global, f: &Core, over: u32, count: u32) -> Result<Member, Memory>
    requires over { over ≤ count }
    requires below { IsBelow (2 ^ 32 - (count - over)) (form f.now) }
    ensures { IfOk result (λ m. member_of m ≡ q.member (brought over count (form f.now)) count 0) }
{
    Ok(Member {
        formula: shift(alloc, f, over, count)?,
        over: count,
        used: 0,
    })
}

/// The formulas as new members in a list.
#[tactic(auto, using(crate::proofs::Stepping::new_step))]
fn many(alloc: Global, formulas: &[Core], over: u32, count: u32) -> Result<Items<Member>, Memory>
    requires over { over ≤ count }
    requires below { AreBelow (2 ^ 32 - (count - over)) (forms_of formulas.now) }
    ensures { IfOk result (λ ms. members_of ms ≡ new_members over count (forms_of formulas.now)) }
{
    let mut out = Items::new(alloc);
    for f in formulas {
        out.push(new_member(alloc, f, over, count)?)?;
    }
    Ok(out)
}

/// The members of a disjunction as new members.
pub fn alpha(alloc: Global, formulas: &[Core], over: u32, count: u32) -> Result<Added, Memory>
    requires over { over ≤ count }
    requires below { AreBelow (2 ^ 32 - (count - over)) (forms_of formulas.now) }
    ensures { IfOk result (λ ms. members_of (added_members ms) ≡ new_members over count (forms_of formulas.now)) }
{
    match formulas {
        [f] => Ok(Added::One(new_member(alloc, f, over, count)?)),
        [f, g] => {
            let first = new_member(alloc, f, over, count)?;
            let second = new_member(alloc, g, over, count)?;
            Ok(Added::Two(first, second))
        }
        _ => Ok(Added::Many(many(alloc, formulas, over, count)?)),
    }
}
