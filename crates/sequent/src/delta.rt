// The rule delta: the body of a for-all, its variable being a new constant.
//
//          C  ⊢  Γ, A(c)
//     ------------------------- delta, c new
//     ∀c C  ⊢  Γ, ∀x A(x)

ghost use Rattle.std.specs.Prelude.{◌≡◌, ◌≤◌, ◌<◌, ◌^◌, ◌-◌, ◌+◌, suc, IfOk};
ghost use Rattle.sequent.specs.Rules.{brought};
ghost use Rattle.sequent.specs.Sequent as q;
ghost use Rattle.formula.specs.Shifts.{IsBelow};
ghost use Rattle.formula.specs.Tree.{form};
ghost use Rattle.sequent.specs.Views.{member_of};

use crate::member::Member;
use formula::{Core, shift};
use linear_term::Memory;
use std::alloc::Global;

/// The body alone, with the constant number `count` for its variable.
pub fn delta(alloc: Global, body: &Core, over: u32, count: u32) -> Result<Member, Memory>
    requires over { over ≤ count }
    requires below { IsBelow (2 ^ 32 - (count - over)) (form body.now) }
    requires room { count + 1 < 2 ^ 32 }
    ensures { IfOk result (λ m. member_of m ≡ q.member (brought over count (form body.now)) (suc count) 0) }
{
    Ok(Member {
        formula: shift(alloc, body, over, count)?,
        over: count + 1,
        used: 0,
    })
}
