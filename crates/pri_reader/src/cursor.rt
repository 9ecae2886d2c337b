// The next tokens: which one comes, and what it is refused as.

ghost use Rattle.pri_reader.specs.Grammar.{Takes, name_of};
ghost use Rattle.pri_reader.specs.Reading.{AddsTerm, AddsNone, BeginsTerm, BeginsNone, Compares, ComparesNone, Heads, HeadsNone, NoRoom, NotNext, Opened, Prefixes, PrefixesNone, RefusesNumber, TakesValue, Unwanted, file_setting, place};
ghost use Rattle.std.specs.Prelude.{◌≡◌, ◌≤◌, ◌<◌, ◌≤ℤ◌, ◌+◌, pos, IfErr, IfOk, MatchOption, length};

use crate::classes::{
    Heading, Opening, Prefix, adding, comparison, headed_by, opened_by, prefixed_by,
};
use crate::tree::{Comparison, Name, ReadRefusal};
use base_numerals::numeral;
use pri_tokens::{Lexeme, Terminal, spelling};
use sqlite_items::Items;
use std::alloc::Global;

/// The greatest number of levels that are open at once.
const LEVELS: u32 = 200;

/// The refusal of the next token, or of the end of the file.
pub fn refused(bytes: &[u8], tokens: &[Lexeme]) -> ReadRefusal
    ensures { result ≡ ReadRefusal.Syntax (place (length bytes.now) tokens.now) }
{
    let Some((first, _)) = tokens.split_first() else {
        return ReadRefusal::Syntax(bytes.len() as u64);
    };
    ReadRefusal::Syntax(first.at)
}

/// The next token and those after it, where it has this terminal.
pub fn after(tokens: &[Lexeme], terminal: Terminal) -> Option<(Lexeme, &[Lexeme])>
    ensures { MatchOption result (NotNext terminal tokens.now) (λ x. Takes terminal x.0 tokens.now x.1.now) }
{
    let (first, rest) = tokens.split_first()?;
    let first = *first;
    if first.terminal == terminal {
        return Some((first, rest));
    }
    None
}

/// The next token, which has to have this terminal, and those after it.
pub fn sign<'a>(
    bytes: &[u8],
    tokens: &'a [Lexeme],
    terminal: Terminal,
) -> Result<(Lexeme, &'a [Lexeme]), ReadRefusal>
    ensures found { IfOk result (λ x. Takes terminal x.0 tokens.now x.1.now) }
    ensures failed { IfErr result (Unwanted terminal bytes.now tokens.now) }
{
    match after(tokens, terminal) {
        Some(found) => Ok(found),
        None => Err(refused(bytes, tokens)),
    }
}

/// The value of the next token, which has to be a number, and the tokens after it.
#[tactic(auto, using(crate::proofs::Numbers::number_lines))]
pub fn number<'a>(bytes: &[u8], tokens: &'a [Lexeme]) -> Result<(i128, &'a [Lexeme]), ReadRefusal>
    ensures found { IfOk result (λ x. TakesValue bytes.now x.0 tokens.now x.1.now) }
    ensures natural { IfOk result (λ x. pos 0 ≤ℤ x.0) }
    ensures failed { IfErr result (RefusesNumber bytes.now tokens.now) }
{
    let (first, rest) = sign(bytes, tokens, Terminal::Number)?;
    let Some(value) = numeral(spelling(bytes, &first)) else {
        return Err(ReadRefusal::Literal(first.at));
    };
    Ok((value, rest))
}

/// The sign before one more term, true for a minus, and the tokens after it.
pub fn added(tokens: &[Lexeme]) -> Option<(bool, &[Lexeme])>
    ensures { MatchOption result (AddsNone tokens.now) (λ x. AddsTerm x.0 tokens.now x.1.now) }
{
    let (first, rest) = tokens.split_first()?;
    let sign = adding(first.terminal)?;
    Some((sign, rest))
}

/// The comparison that comes next, and the tokens after it.
pub fn compared(tokens: &[Lexeme]) -> Option<(Comparison, &[Lexeme])>
    ensures { MatchOption result (ComparesNone tokens.now) (λ x. Compares x.0 tokens.now x.1.now) }
{
    let (first, rest) = tokens.split_first()?;
    let sign = comparison(first.terminal)?;
    Some((sign, rest))
}

/// The formula that is no relation which the next token begins, that token, and those after it.
pub fn prefix(tokens: &[Lexeme]) -> Option<(Prefix, Lexeme, &[Lexeme])>
    ensures { MatchOption result (PrefixesNone tokens.now) (λ x. Prefixes x.0 x.1 tokens.now x.2.now) }
{
    let (first, rest) = tokens.split_first()?;
    let first = *first;
    let prefix = prefixed_by(first.terminal)?;
    Some((prefix, first, rest))
}

/// The term, or the formula in parentheses, which the next token begins, that token, and those after it.
pub fn opening(tokens: &[Lexeme]) -> Option<(Opening, Lexeme, &[Lexeme])>
    ensures { MatchOption result (BeginsNone tokens.now) (λ x. BeginsTerm x.0 x.1 tokens.now x.2.now) }
{
    let (first, rest) = tokens.split_first()?;
    let first = *first;
    let opening = opened_by(first.terminal)?;
    Some((opening, first, rest))
}

/// The block which the next token begins, that token, and those after it.
pub fn heading(tokens: &[Lexeme]) -> Option<(Heading, Lexeme, &[Lexeme])>
    ensures { MatchOption result (HeadsNone tokens.now) (λ x. Heads x.0 x.1 tokens.now x.2.now) }
{
    let (first, rest) = tokens.split_first()?;
    let first = *first;
    let heading = headed_by(first.terminal)?;
    Some((heading, first, rest))
}

/// One level more; Deep at this token where 200 are open.
pub fn deeper(depth: u32, at: u64) -> Result<u32, ReadRefusal>
    ensures found { IfOk result (Opened depth) }
    ensures failed { IfErr result (NoRoom depth at) }
{
    if depth >= LEVELS {
        return Err(ReadRefusal::Deep(at));
    }
    Ok(depth + 1)
}

/// The name that an identifier is.
pub fn name(alloc: Global, bytes: &[u8], lexeme: &Lexeme) -> Result<Name, ReadRefusal>
    ensures exact { IfOk result (λ name. name ≡ name_of (file_setting bytes.now) lexeme.now) }
    ensures failed { IfErr result (λ e. e ≡ ReadRefusal.Memory) }
{
    let text = Items::from_slice(alloc, spelling(bytes, lexeme))?;
    Ok(Name {
        at: lexeme.at,
        text,
    })
}
