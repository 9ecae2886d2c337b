// The lines of a text that speak of its parts, read: entries that are written once and used by several logs.

ghost use Rattle.proof_tokens.specs.Lines.{HasNoUse, IsPart, IsPosition, IsSaidLog, part_text, parts_text, said_text, use_text};
ghost use Rattle.proof_tokens.specs.Reading.{Cuts, RefusesProof};
ghost use Rattle.proof_tokens.specs.declared.tokens.Token.TheVariants as t;
ghost use Rattle.std.specs.Prelude.{◌<◌, ◌∷◌, [], IfErr, IfOk, MatchOption};

use crate::lines::entries;
use crate::numbers::position;
use crate::reading::{Refusal, next};
use crate::single::{line_feed, word};
use crate::tokens::{Token, Word};
use crate::words::byte_at;
use base_budget::ElimLog;
use std::alloc::Global;

/// A log as its line says it.
#[derive(Drop)]
pub enum SaidLog {
    /// Its own entries.
    Entries(ElimLog),
    /// Those of the part with this number, from 0 on.
    Part(u32),
}

/// The line `parts`: how many parts the text has, and the text after it.
pub fn parts(text: &[u8]) -> Result<(u32, &[u8]), Refusal>
    ensures found { IfOk result (λ x. IsPosition x.0 × Cuts (parts_text x.0) text.now x.1.now) }
    ensures first { IfErr result (RefusesProof IsPosition parts_text text.now) }
{
    let inner = word(text, Word::Parts)?;
    let (count, rest) = position(inner)?;
    Ok((count, rest))
}

/// The line `part`, with its entries, of which there is one at least, and the text after it.
pub fn part(alloc: Global, text: &[u8]) -> Result<(ElimLog, &[u8]), Refusal>
    ensures found { IfOk result (λ x. IsPart x.0.entries × Cuts (part_text x.0.entries) text.now x.1.now) }
    ensures first { IfErr result (RefusesProof IsPart part_text text.now) }
{
    let inner = word(text, Word::Part)?;
    let (entries, rest) = entries(alloc, inner)?;
    if entries.is_empty() {
        return Err(Refusal::Syntax(inner.len()));
    }
    Ok((ElimLog { entries }, rest))
}

/// The part, of this many, whose use comes after a blank, and the text after it; none where no such part is used there.
fn use_of(text: &[u8], parts: usize) -> Option<(u32, &[u8])>
    ensures { MatchOption result (HasNoUse parts text.now) (λ x. (x.0 < parts) × Cuts (t.Blank ∷ t.Use x.0 ∷ []) text.now x.1.now) }
{
    if byte_at(text, 1) != b'u' {
        return None;
    }
    let (first, item) = next(text)?;
    let Token::Blank = first else {
        return None;
    };
    let (second, rest) = next(item)?;
    let Token::Use(part) = second else {
        return None;
    };
    if part as usize >= parts {
        return None;
    }
    Some((part, rest))
}

/// What stands after the word of a line with a log, in a text of this many parts, and the text after it.
pub fn said(alloc: Global, text: &[u8], parts: usize) -> Result<(SaidLog, &[u8]), Refusal>
    ensures found { IfOk result (λ x. IsSaidLog parts x.0 × Cuts (said_text x.0) text.now x.1.now) }
    ensures first { IfErr result (RefusesProof (IsSaidLog parts) said_text text.now) }
{
    if let Some((part, end)) = use_of(text, parts) {
        let rest = line_feed(end)?;
        return Ok((SaidLog::Part(part), rest));
    }
    let (entries, rest) = entries(alloc, text)?;
    Ok((SaidLog::Entries(ElimLog { entries }), rest))
}
