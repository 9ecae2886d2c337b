// Which logs of a proof are parts of its text in the second format.

ghost use Rattle.clause_set.specs.declared.literal.Literal.{Literal};
ghost use Rattle.proof_tree.specs.Proof.{proofs};
ghost use Rattle.proof_tree.specs.Views.{proof_of};
ghost use Rattle.proof_printer.specs.Short.{again_in, has_two, key, keys, long_log, most_parts, part_of, parts_of, plain_lines, seen_in};
ghost use Rattle.std.specs.Prelude.{◌≡◌, ◌≤◌, ◌∷◌, [], List, length, map, IfOk, OnOk};
ghost use Rattle.proof_grammar.specs.Lines.{last_lines, lines, lines_all};
ghost use Rattle.proof_grammar.specs.declared.lines.TextLine.TheVariants as w;

use base_budget::{ElimLog, Entry};
use base_texts::Texts;
use linear_term::Memory;
use proof_tokens::put_entries;
use proof_tree::{Conclusion, Node, Tree};
use sequent::Pick;
use std::alloc::Global;

/// The greatest number of parts that a text can say.
const MOST_PARTS: usize = 4_294_967_295;

/// The logs of two entries and more that have come, as they are written, and those of them that came again.
#[derive(Drop)]
pub struct Tally {
    pub seen: Texts,
    pub again: Texts,
}

/// A log as its line has it after the word.
fn written(alloc: Global, entries: &[Entry]) -> Result<Vec<u8>, Memory>
    ensures { IfOk result (λ text. text.items ≡ key entries.now) }
{
    let mut text = Vec::new(alloc);
    put_entries(alloc, entries, &mut text)?;
    Ok(text)
}

/// Whether the log has two entries at least.
fn has_two(entries: &[Entry]) -> bool
    ensures { result ≡ has_two entries.now }
{
    entries.len() >= 2
}

/// The number of the part that a log is; none where it is no part.
pub(crate) fn part_of(
    alloc: Global,
    parts: &Texts,
    entries: &[Entry],
) -> Result<Option<u32>, Memory>
    requires { length parts.now ≤ most_parts }
    ensures { IfOk result (λ part. part ≡ part_of parts.now entries.now) }
{
    if parts.len() == 0 || !has_two(entries) {
        return Ok(None);
    }
    let text = written(alloc, entries)?;
    match parts.place(text.as_slice()) {
        Some(i) => Ok(Some(i as u32)),
        None => Ok(None),
    }
}

impl Tally {
    fn new(alloc: Global) -> Tally
        ensures seen { result.seen ≡ [] }
        ensures again { result.again ≡ [] }
    {
        Tally {
            seen: Texts::new(alloc),
            again: Texts::new(alloc),
        }
    }

    /// Notes the log of a line.
    fn note(&mut self, alloc: Global, entries: &[Entry]) -> Result<(), Memory>
        ensures seen { OnOk result (self.new.seen ≡ seen_in self.old.seen (map key (long_log entries.now))) }
        ensures again { OnOk result (self.new.again ≡ again_in self.old.seen self.old.again (map key (long_log entries.now))) }
    {
        if !has_two(entries) {
            return Ok(());
        }
        let text = written(alloc, entries)?;
        let is_new = self.seen.add(alloc, text.as_slice())?;
        if !is_new {
            self.again.add(alloc, text.as_slice())?;
        }
        Ok(())
    }

    /// Notes the log of a node, where its rule eliminates.
    fn note_last(&mut self, alloc: Global, rule: Pick, log: &ElimLog) -> Result<(), Memory>
        ensures seen { OnOk result ((d : List (List Literal)) → self.new.seen ≡ seen_in self.old.seen (keys (last_lines rule log.now.entries d))) }
        ensures again { OnOk result ((d : List (List Literal)) → self.new.again ≡ again_in self.old.seen self.old.again (keys (last_lines rule log.now.entries d))) }
    {
        match rule {
            Pick::Delta(_) | Pick::Gamma(_) | Pick::Close => self.note(
                alloc,
                log.entries.as_slice(),
            ),
            Pick::Trivial(_) | Pick::Alpha(_) | Pick::Beta(_) => Ok(()),
        }
    }

    /// Notes the logs of a tree.
    #[cycle(noting)]
    fn note_node(&mut self, alloc: Global, node: &Node) -> Result<(), Memory>
        ensures seen { OnOk result (self.new.seen ≡ seen_in self.old.seen (keys (lines (proof_of node.now)))) }
        ensures again { OnOk result (self.new.again ≡ again_in self.old.seen self.old.again (keys (lines (proof_of node.now)))) }
    {
        self.note_nodes(alloc, node.children.as_slice())?;
        self.note_last(alloc, node.rule, &node.log)
    }

    /// Notes the logs of trees, one after another.
    #[cycle(noting)]
    fn note_nodes(&mut self, alloc: Global, nodes: &[Node]) -> Result<(), Memory>
        ensures seen { OnOk result (self.new.seen ≡ seen_in self.old.seen (keys (lines_all (proofs (map proof_of nodes.now))))) }
        ensures again { OnOk result (self.new.again ≡ again_in self.old.seen self.old.again (keys (lines_all (proofs (map proof_of nodes.now))))) }
    {
        for node in nodes {
            self.note_node(alloc, node)?;
        }
        Ok(())
    }

    /// Notes the log of a conclusion, where it has one.
    fn note_end(&mut self, alloc: Global, conclusion: &Conclusion) -> Result<(), Memory>
        ensures seen { OnOk result (self.new.seen ≡ seen_in self.old.seen (keys (w.End conclusion.now ∷ []))) }
        ensures again { OnOk result (self.new.again ≡ again_in self.old.seen self.old.again (keys (w.End conclusion.now ∷ []))) }
    {
        match conclusion {
            Conclusion::Solution(_) => Ok(()),
            Conclusion::Nothing(log) => self.note(alloc, log.entries.as_slice()),
        }
    }
}

/// The parts of the text of a proof, as they are written.
pub(crate) fn parts_of(alloc: Global, tree: &Tree) -> Result<Texts, Memory>
    ensures parts { IfOk result (λ ts. ts ≡ parts_of (plain_lines (proof_of tree.now.root) tree.now.conclusion)) }
    ensures most { IfOk result (λ ts. length ts ≤ most_parts) }
{
    let mut tally = Tally::new(alloc);
    tally.note_node(alloc, &tree.root)?;
    tally.note_end(alloc, &tree.conclusion)?;
    tally.seen.common(alloc, &tally.again, MOST_PARTS)
}
