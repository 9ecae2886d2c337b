// Lines of a proof, each as the walk wants it next.

ghost use Rattle.clause_set.specs.declared.literal.Literal.{Literal};
ghost use Rattle.proof_tree.specs.Walk.{eliminates};
ghost use Rattle.proof_tree.specs.declared.node.Conclusion.{Conclusion};
ghost use Rattle.base_budget.specs.declared.log.Entry.{Entry};
ghost use Rattle.sequent.specs.declared.member.Pick.{Pick};
ghost use Rattle.std.specs.Prelude.{◌≡◌, ◌++◌, ◌∷◌, IfOk, List, Some, ℕ, true};
ghost use Rattle.proof_grammar.specs.Lines.{last_lines};
ghost use Rattle.proof_grammar.specs.declared.lines.TextLine.{TextLine};
ghost use Rattle.proof_grammar.specs.declared.lines.TextLine.TheVariants as w;

use crate::nodes::eliminates;
use clause_set::Literal;
use linear_term::Memory;
use proof_file::{Line, ProofLines};
use sequent::Pick;
use sqlite_items::Items;
use std::alloc::Global;

/// A node's rule, and how many premises it has.
pub fn read_row<L: ProofLines>(alloc: Global, lines: &mut L) -> Result<Option<(Pick, u32)>, Memory>
    ensures { (p : Pick) (k : ℕ) (ls : List TextLine) → L.coming lines.old (w.Row p k ∷ ls) → IfOk result (λ o. (o ≡ Some (p, k)) × L.coming lines.new ls) }
{
    match lines.next(alloc)? {
        Some(Line::Row(rule, premises)) => Ok(Some((rule, premises))),
        _ => Ok(None),
    }
}

/// The constraint of a node, after its premises, once its log has come where its rule has one.
pub fn read_last<L: ProofLines>(
    alloc: Global,
    lines: &mut L,
    rule: Pick,
) -> Result<Option<Items<Items<Literal>>>, Memory>
    ensures { (es : List Entry) (d : List (List Literal)) (ls : List TextLine) → L.coming lines.old (last_lines rule es d ++ ls)
        → IfOk result (λ o. (o ≡ Some d) × L.coming lines.new ls × (eliminates rule ≡ true → (L.log_of lines.new).entries ≡ es)) }
{
    if !read_log(alloc, lines, rule)? {
        return Ok(None);
    }
    read_gives(alloc, lines)
}

/// Whether the log came, where the rule has one.
fn read_log<L: ProofLines>(alloc: Global, lines: &mut L, rule: Pick) -> Result<bool, Memory>
    ensures { (es : List Entry) (d : List (List Literal)) (ls : List TextLine) → L.coming lines.old (last_lines rule es d ++ ls)
        → IfOk result (λ b. (b ≡ true) × L.coming lines.new (w.Gives d ∷ ls) × (eliminates rule ≡ true → (L.log_of lines.new).entries ≡ es)) }
{
    if !eliminates(rule) {
        return Ok(true);
    }
    match lines.next(alloc)? {
        Some(Line::Log) => Ok(true),
        _ => Ok(false),
    }
}

/// A node's constraint.
fn read_gives<L: ProofLines>(
    alloc: Global,
    lines: &mut L,
) -> Result<Option<Items<Items<Literal>>>, Memory>
    ensures { (d : List (List Literal)) (ls : List TextLine) → L.coming lines.old (w.Gives d ∷ ls)
        → IfOk result (λ o. (o ≡ Some d) × L.coming lines.new ls × (L.log_of lines.new ≡ L.log_of lines.old)) }
{
    match lines.next(alloc)? {
        Some(Line::Gives(d)) => Ok(Some(d)),
        _ => Ok(None),
    }
}

/// Whether the conclusion came.
pub fn read_end<L: ProofLines>(alloc: Global, lines: &mut L) -> Result<bool, Memory>
    ensures { (c : Conclusion) (ls : List TextLine) → L.coming lines.old (w.End c ∷ ls) → IfOk result (λ b. (b ≡ true) × (L.end_of lines.new ≡ c)) }
{
    match lines.next(alloc)? {
        Some(Line::End) => Ok(true),
        _ => Ok(false),
    }
}
