// The charge of a node whose rule has a principal.

ghost use Rattle.tree_branch.specs.Standing.{IsPrincipal, rule_at, standing};
ghost use Rattle.proof_tree.specs.Walk as walk;
ghost use Rattle.base_budget.specs.Trace.{capped};
ghost use Rattle.std.specs.Prelude.{◌≡◌};

use crate::branch::Branch;
use crate::principal::Principal;
use formula::size;

/// The charge of a node whose rule has this principal: 1 and its size.
pub fn principal_fee(branch: &Branch, principal: &Principal) -> u64
    requires { IsPrincipal branch.now principal.now }
    ensures { result ≡ capped (walk.fee (standing branch.now) (rule_at principal.now.shape principal.now.index)) }
{
    size(&branch.get(principal).formula).saturating_add(1)
}
