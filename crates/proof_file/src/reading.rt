// The tree that lines of nodes say, one call a node.

ghost use Rattle.proof_file.specs.Body.{body};
ghost use Rattle.proof_file.specs.Refused.{RefusesProofFile};
ghost use Rattle.proof_tree.specs.Proof as t;
ghost use Rattle.proof_tree.specs.Views.{proof_of};
ghost use Rattle.std.specs.Prelude.{◌≡◌, map, IfErr, IfOk};
ghost use Rattle.proof_file.specs.Trees.{AreTrees, IsReadTree, TreeComes, TreesCome};
ghost use Rattle.proof_grammar.specs.Shaped.{IsTextOfProof};

use crate::refusal::ProofRefusal;
use crate::source::ProofLines;
use crate::steps::{next_closing, next_end, next_row};
use crate::stream::Lines;
use base_budget::ElimLog;
use clause_set::Literal;
use linear_term::Memory;
use proof_tree::{Node, Tree};
use sequent::Pick;
use sqlite_items::Items;
use std::alloc::Global;

/// The node of these parts.
fn node_of(rule: Pick, children: Items<Node>, log: ElimLog, gives: Items<Items<Literal>>) -> Node
    ensures { proof_of result ≡ t.node rule (t.proofs (map proof_of children)) log.entries gives }
{
    Node {
        rule,
        children,
        log,
        gives,
    }
}

/// The tree on this level whose lines come next.
#[cycle(reading)]
fn node<L: ProofLines>(alloc: Global, lines: &mut L, level: u32) -> Result<Node, Memory>
    requires comes { TreeComes (L.coming lines.old) level }
    ensures { IfOk result (λ n. IsReadTree (L.coming lines.old) (L.coming lines.new) level n) }
{
    let (rule, count) = next_row(alloc, lines)?;
    let children = nodes(alloc, lines, count, level + 1)?;
    let (log, gives) = next_closing(alloc, lines)?;
    Ok(node_of(rule, children, log, gives))
}

/// The trees on this level whose lines come next, this many.
#[cycle(reading)]
fn nodes<L: ProofLines>(
    alloc: Global,
    lines: &mut L,
    count: u32,
    level: u32,
) -> Result<Items<Node>, Memory>
    requires comes { TreesCome (L.coming lines.old) count level }
    ensures { IfOk result (λ ns. AreTrees (L.coming lines.old) (L.coming lines.new) count level ns) }
{
    let mut trees = Items::new(alloc);
    for _i in 0..count {
        trees.push(node(alloc, lines, level)?)?;
    }
    Ok(trees)
}

/// The proof that a file holds.
pub fn read_tree(alloc: Global, bytes: &[u8]) -> Result<Tree, ProofRefusal>
    ensures found { IfOk result (λ t. IsTextOfProof (body bytes.now) t.charges (proof_of t.root) t.conclusion) }
    ensures refused { IfErr result (RefusesProofFile bytes.now) }
{
    let mut lines = Lines::new(alloc, bytes)?;
    let charges = lines.charges();
    let root = node(alloc, &mut lines, 1)?;
    let conclusion = next_end(alloc, &mut lines)?;
    Ok(Tree {
        charges,
        root,
        conclusion,
    })
}
