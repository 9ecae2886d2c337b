// The lines of a proof that speak of no sequent, read.

ghost use Rattle.proof_tokens.specs.Lines.{AnyEntries, charges_text, entries_text, head_text, IsCharges, IsFormat, LiesBetween, numbered_text};
ghost use Rattle.proof_tokens.specs.Reading.{Cuts, RefusesProof};
ghost use Rattle.std.specs.Prelude.{◌≤◌, IfErr, IfOk};

use crate::reading::Refusal;
use crate::single::{blank, entry, goes_on, line_feed, number_between, word};
use crate::tokens::Word;
use base_budget::Entry;
use base_limits::MOST_BUDGET;
use sqlite_items::Items;
use std::alloc::Global;

/// The greatest number of charges.
const MOST_CHARGES: u128 = MOST_BUDGET as u128;

/// The entries up to and with the end of the line, and the text after it.
pub(crate) fn entries(alloc: Global, text: &[u8]) -> Result<(Items<Entry>, &[u8]), Refusal>
    ensures found { IfOk result (λ x. Cuts (entries_text x.0) text.now x.1.now) }
    ensures first { IfErr result (RefusesProof AnyEntries entries_text text.now) }
{
    let mut found = Items::new(alloc);
    let mut rest = text;
    'items: loop {
        let (more, item) = goes_on(rest)?;
        if !more {
            return Ok((found, item));
        }
        let (step, behind) = entry(item)?;
        found.push(step)?;
        rest = behind;
    }
}

/// A blank, a number from `least` to `most` and the end of the line: the number, and the text after it.
pub(crate) fn numbered(text: &[u8], least: u128, most: u128) -> Result<(u128, &[u8]), Refusal>
    requires { least ≤ most }
    ensures found { IfOk result (λ x. LiesBetween least most x.0 × Cuts (numbered_text x.0) text.now x.1.now) }
    ensures first { IfErr result (RefusesProof (LiesBetween least most) numbered_text text.now) }
{
    let number = blank(text)?;
    let (amount, end) = number_between(number, least, most)?;
    let rest = line_feed(end)?;
    Ok((amount, rest))
}

/// The first line of a proof: its format, and the text after it.
pub fn head(text: &[u8]) -> Result<(u128, &[u8]), Refusal>
    ensures found { IfOk result (λ x. IsFormat x.0 × Cuts (head_text x.0) text.now x.1.now) }
    ensures first { IfErr result (RefusesProof IsFormat head_text text.now) }
{
    let inner = word(text, Word::PrincessProof)?;
    let (format, rest) = numbered(inner, 1, 2)?;
    Ok((format, rest))
}

/// The line `charges`: for how many charges the proof is, and the text after it.
pub fn charges(text: &[u8]) -> Result<(u128, &[u8]), Refusal>
    ensures found { IfOk result (λ x. IsCharges x.0 × Cuts (charges_text x.0) text.now x.1.now) }
    ensures first { IfErr result (RefusesProof IsCharges charges_text text.now) }
{
    let inner = word(text, Word::Charges)?;
    let (amount, rest) = numbered(inner, 0, MOST_CHARGES)?;
    Ok((amount, rest))
}
