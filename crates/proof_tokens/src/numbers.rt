// Integers, and the numbers after the word of a rule, read.

ghost use Rattle.linear_term.specs.Range.{InRange};
ghost use Rattle.proof_tokens.specs.Lines.{AreValues, counted_text, IsCounted, IsPosition, numbered_text, value_text, values_text};
ghost use Rattle.proof_tokens.specs.Reading.{Cuts, RefusesProof};
ghost use Rattle.std.specs.Prelude.{◌<◌, length, IfErr, IfOk};

use crate::lines::numbered;
use crate::reading::Refusal;
use crate::single::{blank, goes_on, number_between, value_start};
use sqlite_items::Items;
use std::alloc::Global;

/// The greatest size of an integer.
const MOST: u128 = 170_141_183_460_469_231_731_687_303_715_884_105_727;

/// The greatest position, and the greatest number of premises.
const MOST_POSITION: u128 = 4_294_967_295;

/// An integer, and the text after it.
pub(crate) fn value(text: &[u8]) -> Result<(i128, &[u8]), Refusal>
    ensures found { IfOk result (λ x. InRange x.0 × Cuts (value_text x.0) text.now x.1.now) }
    ensures shorter { IfOk result (λ x. length x.1.now < length text.now) }
    ensures first { IfErr result (RefusesProof InRange value_text text.now) }
{
    let (start, rest) = value_start(text)?;
    let Some(n) = start else {
        let (size, behind) = number_between(rest, 1, MOST)?;
        return Ok((-(size as i128), behind));
    };
    Ok((n as i128, rest))
}

/// The integers up to and with the end of the line, and the text after it.
pub fn values(alloc: Global, text: &[u8]) -> Result<(Items<i128>, &[u8]), Refusal>
    ensures found { IfOk result (λ x. AreValues x.0 × Cuts (values_text x.0) text.now x.1.now) }
    ensures first { IfErr result (RefusesProof AreValues values_text text.now) }
{
    let mut found = Items::new(alloc);
    let mut rest = text;
    'items: loop {
        let (more, item) = goes_on(rest)?;
        if !more {
            return Ok((found, item));
        }
        let (number, behind) = value(item)?;
        found.push(number)?;
        rest = behind;
    }
}

/// A blank, a position and the end of the line: the position, and the text after it.
pub fn position(text: &[u8]) -> Result<(u32, &[u8]), Refusal>
    ensures found { IfOk result (λ x. Cuts (numbered_text x.0) text.now x.1.now) }
    ensures first { IfErr result (RefusesProof IsPosition numbered_text text.now) }
{
    let (place, rest) = numbered(text, 0, MOST_POSITION)?;
    Ok((place as u32, rest))
}

/// A blank, a position, a blank, a number of premises and the end of the line: both numbers, and the text after them.
pub fn counted(text: &[u8]) -> Result<((u32, u32), &[u8]), Refusal>
    ensures found { IfOk result (λ x. IsCounted x.0 × Cuts (counted_text x.0) text.now x.1.now) }
    ensures first { IfErr result (RefusesProof IsCounted counted_text text.now) }
{
    let number = blank(text)?;
    let (place, inner) = number_between(number, 0, MOST_POSITION)?;
    let (count, rest) = numbered(inner, 1, MOST_POSITION)?;
    Ok(((place as u32, count as u32), rest))
}
