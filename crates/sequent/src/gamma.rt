// The rule gamma: the body of a for-some with a new constant for its variable, and the principal once more. The constraint
// chooses the constant later: that is what makes this a calculus of constraints.
//
//     C  ⊢  Γ, A(c), ∃x A(x)
//     ------------------------- gamma, c new
//     ∃c C  ⊢  Γ, ∃x A(x)

ghost use Rattle.std.specs.Prelude.{◌≡◌, ◌≤◌, ◌<◌, ◌^◌, ◌-◌, ◌+◌, suc, IfOk, [], ◌∷◌};
ghost use Rattle.sequent.specs.Rules.{brought};
ghost use Rattle.sequent.specs.Sequent as q;
ghost use Rattle.formula.specs.Shifts.{IsBelow};
ghost use Rattle.formula.specs.Tree.{form};
ghost use Rattle.sequent.specs.Views.{added_members, members_of};

use crate::added::Added;
use crate::delta::delta;
use crate::member::Member;
use formula::Core;
use linear_term::Memory;
use std::alloc::Global;

/// The body, and after it the principal, used once more.
pub fn gamma(alloc: Global, m: &Member, body: &Core, count: u32) -> Result<Added, Memory>
    requires over { m.now.over ≤ count }
    requires below { IsBelow (2 ^ 32 - (count - m.now.over)) (form body.now) }
    requires room { count + 1 < 2 ^ 32 }
    requires used { m.now.used + 1 < 2 ^ 32 }
    ensures { IfOk result (λ ms. members_of (added_members ms) ≡ q.member (brought m.now.over count (form body.now)) (suc count) 0 ∷ q.member (form m.now.formula) m.now.over (suc m.now.used) ∷ []) }
{
    let new = delta(alloc, body, m.over, count)?;
    let again = Member {
        formula: m.formula.copy(alloc)?,
        over: m.over,
        used: m.used + 1,
    };
    Ok(Added::Two(new, again))
}
