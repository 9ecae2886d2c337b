// The opening of a text: its format, its parts, and for how many charges the proof is.

ghost use Rattle.proof_tokens.specs.Lines.{head_text, IsCharges, IsFormat};
ghost use Rattle.proof_tokens.specs.Reading.{Cuts};
ghost use Rattle.std.specs.Prelude.{◌∷◌, [], length, IfErr, IfOk};
ghost use Rattle.proof_grammar.specs.declared.lines.Owed.TheVariants as o;
ghost use Rattle.proof_grammar.specs.declared.lines.TextLine.TheVariants as w;
ghost use Rattle.proof_grammar.specs.Refusals.{RefusesText};
ghost use Rattle.proof_grammar.specs.Stands.{IsOpened, StandsBefore};

use crate::text::Fault;
use base_budget::ElimLog;
use proof_tokens::{charges, head, part, parts};
use sqlite_items::Items;
use std::alloc::Global;

/// The opening of a text.
#[derive(Drop)]
pub struct Opening {
    /// The logs that are written once; none in the first format.
    pub parts: Items<ElimLog>,
    /// For how many charges the proof is.
    pub charges: u64,
}

/// The parts of a text of the second format: the line that says how many they are, and a line for each; and the text after them.
fn listed_parts<'a>(
    alloc: Global,
    text: &[u8],
    inner: &'a [u8],
) -> Result<(Items<ElimLog>, &'a [u8]), Fault>
    requires { StandsBefore [] (w.Head 1 ∷ []) (o.Parts ∷ []) text.now inner.now }
    ensures found { IfOk result (λ x. StandsBefore x.0 (w.Head 1 ∷ []) (o.Charges (length x.0) ∷ []) text.now x.1.now) }
    ensures refused { IfErr result (RefusesText text.now) }
{
    let _ = text;
    let (count, behind) = parts(inner)?;
    let mut found = Items::new(alloc);
    let mut rest = behind;
    for _i in 0..count {
        let (log, more) = part(alloc, rest)?;
        found.push(log)?;
        rest = more;
    }
    Ok((found, rest))
}

/// The parts of a text of this format, and the text after them.
fn parts_of<'a>(
    alloc: Global,
    text: &[u8],
    format: u128,
    inner: &'a [u8],
) -> Result<(Items<ElimLog>, &'a [u8]), Fault>
    requires format { IsFormat format }
    requires headed { Cuts (head_text format) text.now inner.now }
    ensures found { IfOk result (λ x. StandsBefore x.0 (w.Head 1 ∷ []) (o.Charges (length x.0) ∷ []) text.now x.1.now) }
    ensures refused { IfErr result (RefusesText text.now) }
{
    if format == 1 {
        return Ok((Items::new(alloc), inner));
    }
    listed_parts(alloc, text, inner)
}

/// The opening of a text, and the text after it.
pub fn read_opening(alloc: Global, text: &[u8]) -> Result<(Opening, &[u8]), Fault>
    ensures amount { IfOk result (λ x. IsCharges x.0.charges) }
    ensures found { IfOk result (λ x. IsOpened x.0.parts x.0.charges text.now x.1.now) }
    ensures refused { IfErr result (RefusesText text.now) }
{
    let (format, inner) = head(text)?;
    let (parts, behind) = parts_of(alloc, text, format, inner)?;
    let (amount, rest) = charges(behind)?;
    let charges = amount as u64;
    Ok((Opening { parts, charges }, rest))
}
