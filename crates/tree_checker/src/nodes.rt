// What the rule of a node says of it: whether it has a log, and whether it is a leaf that is closed.

ghost use Rattle.proof_tree.specs.Walk as walk;
ghost use Rattle.sequent.specs.Rules.{place};
ghost use Rattle.std.specs.Prelude.{◌≡◌, ◌&&◌, is_none, nat_eq};

use sequent::Pick;

/// Whether the rule eliminates, so that its node has a log.
pub fn eliminates(rule: Pick) -> bool
    ensures { result ≡ walk.eliminates rule }
{
    match rule {
        Pick::Delta(_) | Pick::Gamma(_) | Pick::Close => true,
        Pick::Trivial(_) | Pick::Alpha(_) | Pick::Beta(_) => false,
    }
}

/// Whether the node is a leaf that is closed: its rule has no principal, and it has no premises.
pub fn is_leaf(rule: Pick, premises: u32) -> bool
    ensures { result ≡ (is_none (place rule) && nat_eq premises 0) }
{
    match rule {
        Pick::Close => premises == 0,
        Pick::Trivial(_) | Pick::Alpha(_) | Pick::Delta(_) | Pick::Beta(_) | Pick::Gamma(_) => {
            false
        }
    }
}
