// The text of a proof, written.

ghost use Rattle.proof_tree.specs.Proof.{proofs};
ghost use Rattle.proof_tree.specs.Views.{proof_of};
ghost use Rattle.proof_tokens.specs.Spellings.{spelled};
ghost use Rattle.proof_printer.specs.Short.{most_parts, short_line, short_lines_of, short_text};
ghost use Rattle.std.specs.Prelude.{◌≡◌, ◌≤◌, ◌++◌, length, map, OnOk};
ghost use Rattle.proof_grammar.specs.Lines.{last_lines, line_text, lines, lines_all, proof_text, tokens_of};
ghost use Rattle.proof_grammar.specs.declared.lines.TextLine.TheVariants as w;
ghost use Rattle.proof_grammar.specs.Shaped.{IsTextOfProof, IsWritable};

use crate::given::write_given;
use crate::knowing::know_typed;
use crate::rows::{write_conclusion, write_row};
use crate::sharing::{part_of, parts_of};
use base_budget::ElimLog;
use base_texts::Texts;
use clause_set::Literal;
use linear_term::Memory;
use proof_tokens::{
    write_charges, write_head, write_log, write_log_use, write_none_use, write_parts,
};
use proof_tree::{Conclusion, Node, Tree};
use sequent::Pick;
use sqlite_items::Items;
use std::alloc::Global;

/// Writes the line of a log, which may be the use of a part.
#[tactic(auto, using(crate::proofs::Nodes::plain_log, crate::proofs::Nodes::used_log))]
fn write_said_log(
    alloc: Global,
    parts: &Texts,
    log: &ElimLog,
    out: &mut Vec<u8>,
) -> Result<(), Memory>
    requires { length parts.now ≤ most_parts }
    ensures { OnOk result (out.new.items ≡ out.old.items ++ spelled (line_text (short_line parts.now (w.Log log.now)))) }
{
    match part_of(alloc, parts, log.entries.as_slice())? {
        Some(part) => write_log_use(alloc, part, out),
        None => write_log(alloc, log.entries.as_slice(), out),
    }
}

/// Writes the lines of a node after those of its premises: its log, where the rule eliminates, and its constraint.
#[tactic(auto, using(crate::proofs::Nodes::logged_ends, crate::proofs::Nodes::plain_ends))]
fn write_ends(
    alloc: Global,
    parts: &Texts,
    rule: Pick,
    log: &ElimLog,
    gives: &[Items<Literal>],
    out: &mut Vec<u8>,
) -> Result<(), Memory>
    requires { length parts.now ≤ most_parts }
    ensures { OnOk result (out.new.items ≡ out.old.items ++ spelled (tokens_of (short_lines_of parts.now (last_lines rule log.now.entries gives.now)))) }
{
    match rule {
        Pick::Delta(_) | Pick::Gamma(_) | Pick::Close => {
            write_said_log(alloc, parts, log, out)?;
            write_given(alloc, gives, out)
        }
        Pick::Trivial(_) | Pick::Alpha(_) | Pick::Beta(_) => write_given(alloc, gives, out),
    }
}

/// Writes the lines of a node.
#[cycle(writing)]
#[tactic(auto, using(crate::proofs::Nodes::node_written))]
fn write_node(alloc: Global, parts: &Texts, node: &Node, out: &mut Vec<u8>) -> Result<(), Memory>
    requires { length parts.now ≤ most_parts }
    ensures { OnOk result (out.new.items ≡ out.old.items ++ spelled (tokens_of (short_lines_of parts.now (lines (proof_of node.now))))) }
{
    write_row(alloc, node.rule, node.children.len(), out)?;
    write_nodes(alloc, parts, node.children.as_slice(), out)?;
    write_ends(
        alloc,
        parts,
        node.rule,
        &node.log,
        node.gives.as_slice(),
        out,
    )
}

/// Writes the lines of nodes, one after another.
#[cycle(writing)]
#[tactic(auto, using(crate::proofs::Nodes::node_more))]
fn write_nodes(
    alloc: Global,
    parts: &Texts,
    nodes: &[Node],
    out: &mut Vec<u8>,
) -> Result<(), Memory>
    requires { length parts.now ≤ most_parts }
    ensures { OnOk result (out.new.items ≡ out.old.items ++ spelled (tokens_of (short_lines_of parts.now (lines_all (proofs (map proof_of nodes.now)))))) }
{
    for node in nodes {
        write_node(alloc, parts, node, out)?;
    }
    Ok(())
}

/// Writes the conclusion of a proof, whose log may be the use of a part.
#[tactic(auto, using(crate::proofs::Nodes::plain_none, crate::proofs::Nodes::used_none))]
fn write_end(
    alloc: Global,
    parts: &Texts,
    conclusion: &Conclusion,
    out: &mut Vec<u8>,
) -> Result<(), Memory>
    requires { length parts.now ≤ most_parts }
    ensures { OnOk result (out.new.items ≡ out.old.items ++ spelled (line_text (short_line parts.now (w.End conclusion.now)))) }
{
    let Conclusion::Nothing(log) = conclusion else {
        return write_conclusion(alloc, conclusion, out);
    };
    match part_of(alloc, parts, log.entries.as_slice())? {
        Some(part) => write_none_use(alloc, part, out),
        None => write_conclusion(alloc, conclusion, out),
    }
}

/// Writes the text of a proof in the first format after a text.
pub fn write_tree(alloc: Global, tree: &Tree, out: &mut Vec<u8>) -> Result<(), Memory>
    requires { IsWritable tree.now.charges (proof_of tree.now.root) tree.now.conclusion }
    ensures text { OnOk result (out.new.items ≡ out.old.items ++ spelled (proof_text tree.now.charges (proof_of tree.now.root) tree.now.conclusion)) }
    ensures holds { OnOk result (IsTextOfProof (spelled (proof_text tree.now.charges (proof_of tree.now.root) tree.now.conclusion)) tree.now.charges (proof_of tree.now.root) tree.now.conclusion) }
{
    know_typed(tree);
    let none = Texts::new(alloc);
    write_head(alloc, 1, out)?;
    write_charges(alloc, u128::from(tree.charges), out)?;
    write_node(alloc, &none, &tree.root, out)?;
    write_conclusion(alloc, &tree.conclusion, out)
}

/// Writes the text of a proof in the second format after a text: each log of two entries and more that stands on two lines at
/// least is written once.
pub fn write_short(alloc: Global, tree: &Tree, out: &mut Vec<u8>) -> Result<(), Memory>
    requires { IsWritable tree.now.charges (proof_of tree.now.root) tree.now.conclusion }
    ensures text { OnOk result (out.new.items ≡ out.old.items ++ spelled (short_text tree.now.charges (proof_of tree.now.root) tree.now.conclusion)) }
    ensures holds { OnOk result (IsTextOfProof (spelled (short_text tree.now.charges (proof_of tree.now.root) tree.now.conclusion)) tree.now.charges (proof_of tree.now.root) tree.now.conclusion) }
{
    know_typed(tree);
    let parts = parts_of(alloc, tree)?;
    write_head(alloc, 2, out)?;
    write_parts(alloc, parts.len() as u32, out)?;
    parts.put_each(b"part", out)?;
    write_charges(alloc, u128::from(tree.charges), out)?;
    write_node(alloc, &parts, &tree.root, out)?;
    write_end(alloc, &parts, &tree.conclusion, out)
}
