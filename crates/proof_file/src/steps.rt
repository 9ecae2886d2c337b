// The line that comes next, where it is known what line that is.

ghost use Rattle.clause_set.specs.declared.literal.Literal.{Literal};
ghost use Rattle.proof_tree.specs.declared.node.Conclusion.{Conclusion};
ghost use Rattle.sequent.specs.declared.member.Pick.{Pick};
ghost use Rattle.std.specs.Prelude.{◌≡◌, ◌∷◌, IfOk, List, ℕ};
ghost use Rattle.proof_grammar.specs.declared.lines.TextLine.{TextLine};
ghost use Rattle.proof_grammar.specs.declared.lines.TextLine.TheVariants as w;
ghost use Rattle.proof_file.specs.Trees.{ClosingComes, ClosesNode};

use crate::source::{Line, ProofLines};
use base_budget::ElimLog;
use clause_set::Literal;
use linear_term::Memory;
use proof_tree::Conclusion;
use sequent::Pick;
use sqlite_items::Items;
use std::alloc::Global;

/// The rule that comes next, with the number of its premises.
pub(crate) fn next_row<L: ProofLines>(alloc: Global, lines: &mut L) -> Result<(Pick, u32), Memory>
    requires comes { (p : Pick) × (k : ℕ) × (ls : List TextLine) × L.coming lines.old (w.Row p k ∷ ls) }
    ensures { IfOk result (λ r. (p : Pick) (k : ℕ) (ls : List TextLine) → L.coming lines.old (w.Row p k ∷ ls) → (r.0 ≡ p) × (r.1 ≡ k) × L.coming lines.new ls) }
{
    match lines.next(alloc)? {
        Some(Line::Row(rule, count)) => Ok((rule, count)),
        _ => unreachable!(),
    }
}

/// The constraint that comes next.
fn next_gives<L: ProofLines>(alloc: Global, lines: &mut L) -> Result<Items<Items<Literal>>, Memory>
    requires comes { (d : List (List Literal)) × (ls : List TextLine) × L.coming lines.old (w.Gives d ∷ ls) }
    ensures { IfOk result (λ r. (d : List (List Literal)) (ls : List TextLine) → L.coming lines.old (w.Gives d ∷ ls) → (r ≡ d) × L.coming lines.new ls) }
{
    match lines.next(alloc)? {
        Some(Line::Gives(clauses)) => Ok(clauses),
        _ => unreachable!(),
    }
}

/// The log and the constraint of a node that come next; no log comes where its rule does not eliminate.
pub(crate) fn next_closing<L: ProofLines>(
    alloc: Global,
    lines: &mut L,
) -> Result<(ElimLog, Items<Items<Literal>>), Memory>
    requires comes { (p : Pick) × ClosingComes (L.coming lines.old) p }
    ensures { IfOk result (λ r. (p : Pick) → ClosesNode (L.coming lines.old) (L.coming lines.new) p r.0.entries r.1) }
{
    match lines.next(alloc)? {
        Some(Line::Log) => {
            let log = lines.log().copy(alloc)?;
            Ok((log, next_gives(alloc, lines)?))
        }
        Some(Line::Gives(gives)) => Ok((
            ElimLog {
                entries: Items::new(alloc),
            },
            gives,
        )),
        _ => unreachable!(),
    }
}

/// The conclusion that comes next.
pub(crate) fn next_end<L: ProofLines>(alloc: Global, lines: &mut L) -> Result<Conclusion, Memory>
    requires comes { (end : Conclusion) × (ls : List TextLine) × L.coming lines.old (w.End end ∷ ls) }
    ensures { IfOk result (λ r. (end : Conclusion) (ls : List TextLine) → L.coming lines.old (w.End end ∷ ls) → r ≡ end) }
{
    match lines.next(alloc)? {
        Some(Line::End) => lines.conclusion().copy(alloc),
        _ => unreachable!(),
    }
}
