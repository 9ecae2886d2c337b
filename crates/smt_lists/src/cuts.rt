// Where a script may be cut in two: after an outermost list. So what stands before a refusal can be answered.

ghost use Rattle.smt_lists.specs.Cuts.{cut_at, cut_from, depth_after, ends_outermost, is_within, last_cut};
ghost use Rattle.std.specs.Prelude.{◌≡◌, ◌+◌, ◌<◌, ◌⊎◌, IfOk, None, Some, if◌then◌else◌, length};

use smt_tokens::{Lexeme, Terminal, lexemes};
use std::alloc::{AllocError, Global};

/// The offset after the last outermost list that ends at or before this place, with something left after it; 0 if there is
/// none. The one error is running out of memory.
pub fn last_cut(alloc: Global, bytes: &[u8], place: u64) -> Result<usize, AllocError>
    ensures exact { IfOk result (λ at. at ≡ last_cut bytes.now place) }
    ensures within { IfOk result (λ at. (at < length bytes.now) ⊎ (at ≡ 0)) }
{
    let tokens = lexemes(alloc, bytes)?;
    last_among(bytes, place, tokens.as_slice())
}

/// The last such offset among these tokens of a text.
#[tactic(auto, using(crate::proofs::Cutting::cuts_on, crate::proofs::Cutting::cuts_end))]
fn last_among(bytes: &[u8], place: u64, tokens: &[Lexeme]) -> Result<usize, AllocError>
    ensures exact { IfOk result (λ at. at ≡ cut_from (is_within bytes.now place) 0 0 tokens.now) }
    ensures within { IfOk result (λ at. (at < length bytes.now) ⊎ (at ≡ 0)) }
{
    let mut depth: u64 = 0;
    let mut found: usize = 0;
    let mut rest = tokens;
    while let Some((token, behind)) = rest.split_first() {
        if ends_outermost(token.terminal, depth) {
            found = cut_after(bytes, place, token.at).unwrap_or(found);
        }
        depth = depth_after(token.terminal, depth)?;
        rest = behind;
    }
    Ok(found)
}

/// The offset after a byte, if it is at or before this place, and within the text.
fn cut_after(bytes: &[u8], place: u64, at: u64) -> Option<usize>
    ensures { result ≡ (if is_within bytes.now place (at + 1) then Some (at + 1) else None) }
{
    let last = (bytes.len() as u64).saturating_sub(1);
    if at < place && at < last {
        Some(at as usize + 1)
    } else {
        None
    }
}

/// Whether a token ends an outermost list, where this many are open.
fn ends_outermost(terminal: Terminal, depth: u64) -> bool
    ensures { result ≡ ends_outermost terminal depth }
{
    match terminal {
        Terminal::Close => depth <= 1,
        Terminal::Open
        | Terminal::Numeral
        | Terminal::Decimal
        | Terminal::Hash
        | Terminal::StringLiteral
        | Terminal::Keyword
        | Terminal::Symbol
        | Terminal::Quoted
        | Terminal::Bad
        | Terminal::Unfinished => false,
    }
}

/// How many lists are open after a token.
fn depth_after(terminal: Terminal, depth: u64) -> Result<u64, AllocError>
    ensures { IfOk result (λ n. n ≡ depth_after terminal depth) }
{
    match terminal {
        Terminal::Open => depth.checked_add(1).ok_or(AllocError),
        Terminal::Close => Ok(depth.saturating_sub(1)),
        Terminal::Numeral
        | Terminal::Decimal
        | Terminal::Hash
        | Terminal::StringLiteral
        | Terminal::Keyword
        | Terminal::Symbol
        | Terminal::Quoted
        | Terminal::Bad
        | Terminal::Unfinished => Ok(depth),
    }
}
