// What proofs of the code are by their types. These calls do nothing, and tell their callers so.

ghost use Rattle.proof_tokens.specs.Spellings.{IsEntry};
ghost use Rattle.proof_tree.specs.Proof.{proofs};
ghost use Rattle.proof_tree.specs.Views.{proof_of};
ghost use Rattle.proof_printer.specs.Typed.{AreTypedProofs, AreTypedLiterals, IsTypedProof, IsTypedConclusion, IsTypedLiteral, IsTypedRule};
ghost use Rattle.std.specs.List.{AllByRecursion};
ghost use Rattle.std.specs.Prelude.{◌<ℤ◌, ◌^◌, map, pos};

use base_budget::Entry;
use clause_set::Literal;
use proof_tree::{Conclusion, Node, Tree};
use sequent::Pick;
use sqlite_items::Items;

fn know_rule(rule: Pick)
    ensures { IsTypedRule rule }
{
    let _ = rule;
}

fn know_entry(step: Entry)
    ensures { IsEntry step }
{
    let _ = step;
}

#[tactic(auto, using(crate::proofs::Known::entries_known))]
fn know_entries(entries: &[Entry])
    ensures { AllByRecursion IsEntry entries.now }
{
    for step in entries {
        know_entry(*step);
    }
}

fn know_divisor(size: i128)
    ensures { size <ℤ pos (2 ^ 127) }
{
    let _ = size;
}

fn know_literal(literal: &Literal)
    ensures { IsTypedLiteral literal.now }
{
    literal.term().know_normal();
    match literal {
        Literal::Eq(_) | Literal::Geq(_) => {}
        Literal::Div(size, _) | Literal::NDiv(size, _) => know_divisor(*size),
    }
}

#[tactic(auto, using(crate::proofs::Known::literals_known))]
fn know_literals(literals: &[Literal])
    ensures { AreTypedLiterals literals.now }
{
    for literal in literals {
        know_literal(literal);
    }
}

#[tactic(auto, using(crate::proofs::Known::clauses_known))]
fn know_clauses(clauses: &[Items<Literal>])
    ensures { AllByRecursion AreTypedLiterals clauses.now }
{
    for clause in clauses {
        know_literals(clause.as_slice());
    }
}

#[cycle(knowing)]
#[tactic(auto, using(crate::proofs::Known::node_known))]
fn know_node(node: &Node)
    ensures { IsTypedProof (proof_of node.now) }
{
    know_rule(node.rule);
    know_entries(node.log.entries.as_slice());
    know_clauses(node.gives.as_slice());
    know_nodes(node.children.as_slice());
}

#[cycle(knowing)]
#[tactic(auto, using(crate::proofs::Known::nodes_known))]
fn know_nodes(nodes: &[Node])
    ensures { AreTypedProofs (proofs (map proof_of nodes.now)) }
{
    for node in nodes {
        know_node(node);
    }
}

fn know_conclusion(conclusion: &Conclusion)
    ensures { IsTypedConclusion conclusion.now }
{
    match conclusion {
        Conclusion::Solution(_) => {}
        Conclusion::Nothing(log) => know_entries(log.entries.as_slice()),
    }
}

/// The positions in a proof fit 32 bits, its terms are in normal form, and its divisors fit 127 bits: this call does nothing,
/// and tells its caller so.
pub fn know_typed(tree: &Tree)
    ensures root { IsTypedProof (proof_of tree.now.root) }
    ensures conclusion { IsTypedConclusion tree.now.conclusion }
{
    know_node(&tree.root);
    know_conclusion(&tree.conclusion);
}
