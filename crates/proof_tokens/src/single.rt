// Single tokens that have to come next, and the text after them.

ghost use Rattle.proof_tokens.specs.Lines.{IsNumberIn, IsSeparator, IsStep, IsValueStart, start_size, start_token};
ghost use Rattle.proof_tokens.specs.Reading.{Cuts, RefusesNext};
ghost use Rattle.proof_tokens.specs.Spellings.{token_of};
ghost use Rattle.proof_tokens.specs.declared.tokens.Token.TheVariants as t;
ghost use Rattle.std.specs.Prelude.{◌≡◌, ◌≤◌, ◌<◌, ◌^◌, ◌∷◌, [], cond, length, IfErr, IfOk};

use crate::ahead::{entry_ahead, number_ahead, word_ahead};
use crate::reading::{Refusal, next};
use crate::tokens::{Token, Word};
use base_budget::Entry;

/// The text after a blank.
pub fn blank(text: &[u8]) -> Result<&[u8], Refusal>
    ensures found { IfOk result (λ rest. Cuts (t.Blank ∷ []) text.now rest.now) }
    ensures lacks { IfErr result (RefusesNext (λ x. x ≡ t.Blank) text.now) }
{
    let Some((first, rest)) = text.split_first() else {
        return Err(Refusal::Syntax(0));
    };
    if *first == b' ' {
        Ok(rest)
    } else {
        Err(Refusal::Syntax(text.len()))
    }
}

/// The text after the end of a line.
pub fn line_feed(text: &[u8]) -> Result<&[u8], Refusal>
    ensures found { IfOk result (λ rest. Cuts (t.LineFeed ∷ []) text.now rest.now) }
    ensures lacks { IfErr result (RefusesNext (λ x. x ≡ t.LineFeed) text.now) }
{
    let Some((first, rest)) = text.split_first() else {
        return Err(Refusal::Syntax(0));
    };
    if *first == b'\n' {
        Ok(rest)
    } else {
        Err(Refusal::Syntax(text.len()))
    }
}

/// The text after this word.
pub fn word(text: &[u8], word: Word) -> Result<&[u8], Refusal>
    ensures found { IfOk result (λ rest. Cuts (token_of word ∷ []) text.now rest.now) }
    ensures lacks { IfErr result (RefusesNext (λ x. x ≡ token_of word) text.now) }
{
    match word_ahead(text, word.spelling()) {
        Some(rest) => Ok(rest),
        None => word_token(text, word),
    }
}

/// The text after this word, whatever stands there.
fn word_token(text: &[u8], word: Word) -> Result<&[u8], Refusal>
    ensures found { IfOk result (λ rest. Cuts (token_of word ∷ []) text.now rest.now) }
    ensures lacks { IfErr result (RefusesNext (λ x. x ≡ token_of word) text.now) }
{
    let Some((token, rest)) = next(text) else {
        return Err(Refusal::Syntax(0));
    };
    if word.is(token) {
        Ok(rest)
    } else {
        Err(Refusal::Syntax(text.len()))
    }
}

/// A number from `least` to `most`, and the text after it.
pub(crate) fn number_between(text: &[u8], least: u128, most: u128) -> Result<(u128, &[u8]), Refusal>
    ensures found { IfOk result (λ x. (least ≤ x.0) × (x.0 ≤ most) × Cuts (t.Number x.0 ∷ []) text.now x.1.now) }
    ensures shorter { IfOk result (λ x. length x.1.now < length text.now) }
    ensures lacks { IfErr result (RefusesNext (IsNumberIn least most) text.now) }
{
    match number_ahead(text) {
        Some((n, rest)) if least <= u128::from(n) && u128::from(n) <= most => {
            Ok((u128::from(n), rest))
        }
        _ => number_token(text, least, most),
    }
}

/// A number from `least` to `most`, whatever stands there, and the text after it.
fn number_token(text: &[u8], least: u128, most: u128) -> Result<(u128, &[u8]), Refusal>
    ensures found { IfOk result (λ x. (least ≤ x.0) × (x.0 ≤ most) × Cuts (t.Number x.0 ∷ []) text.now x.1.now) }
    ensures shorter { IfOk result (λ x. length x.1.now < length text.now) }
    ensures lacks { IfErr result (RefusesNext (IsNumberIn least most) text.now) }
{
    let Some((token, rest)) = next(text) else {
        return Err(Refusal::Syntax(0));
    };
    let Token::Number(n) = token else {
        return Err(Refusal::Syntax(text.len()));
    };
    if n < least {
        return Err(Refusal::Syntax(text.len()));
    }
    if n > most {
        return Err(Refusal::Syntax(text.len()));
    }
    Ok((n, rest))
}

/// An entry of a log, and the text after it.
pub(crate) fn entry(text: &[u8]) -> Result<(Entry, &[u8]), Refusal>
    ensures found { IfOk result (λ x. Cuts (t.Step x.0 ∷ []) text.now x.1.now) }
    ensures shorter { IfOk result (λ x. length x.1.now < length text.now) }
    ensures lacks { IfErr result (RefusesNext IsStep text.now) }
{
    if let Some((step, rest)) = entry_ahead(text) {
        return Ok((step, rest));
    }
    let Some((token, rest)) = next(text) else {
        return Err(Refusal::Syntax(0));
    };
    let Token::Step(step) = token else {
        return Err(Refusal::Syntax(text.len()));
    };
    Ok((step, rest))
}

/// Whether a blank comes, with the text after it; else the end of the line comes.
pub(crate) fn goes_on(text: &[u8]) -> Result<(bool, &[u8]), Refusal>
    ensures found { IfOk result (λ x. Cuts (cond x.0 t.Blank t.LineFeed ∷ []) text.now x.1.now) }
    ensures shorter { IfOk result (λ x. length x.1.now < length text.now) }
    ensures lacks { IfErr result (RefusesNext IsSeparator text.now) }
{
    let Some((first, rest)) = text.split_first() else {
        return Err(Refusal::Syntax(0));
    };
    if *first == b' ' {
        return Ok((true, rest));
    }
    if *first == b'\n' {
        return Ok((false, rest));
    }
    Err(Refusal::Syntax(text.len()))
}

/// The number that comes next, or none where a `-` does, and the text after it.
pub(crate) fn value_start(text: &[u8]) -> Result<(Option<u128>, &[u8]), Refusal>
    ensures found { IfOk result (λ x. Cuts (start_token x.0 ∷ []) text.now x.1.now) }
    ensures small { IfOk result (λ x. start_size x.0 < 2 ^ 127) }
    ensures shorter { IfOk result (λ x. length x.1.now < length text.now) }
    ensures lacks { IfErr result (RefusesNext IsValueStart text.now) }
{
    let Some((token, rest)) = next(text) else {
        return Err(Refusal::Syntax(0));
    };
    match token {
        Token::Number(n) => Ok((Some(n), rest)),
        Token::Minus => Ok((None, rest)),
        _ => Err(Refusal::Syntax(text.len())),
    }
}
