// Names, numbers, entries and some words at the front of a text, found without a look at other words: most tokens of a long
// proof are these.

ghost use Rattle.base_numerals.specs.Numerals.{decimal_value};
ghost use Rattle.proof_tokens.specs.Lines.{IsName, IsSmallNumber};
ghost use Rattle.proof_tokens.specs.Reading.{Cuts, HasNoneEnded};
ghost use Rattle.proof_tokens.specs.Scanning.{ends_digits, ends_word, HasNoNumber};
ghost use Rattle.proof_tokens.specs.Spellings.{IsProofToken, IsRangedToken, spelling};
ghost use Rattle.proof_tokens.specs.declared.tokens.Token.TheVariants as t;
ghost use Rattle.std.specs.Char.{is_ascii_digit};
ghost use Rattle.std.specs.Fmt.{decimal};
ghost use Rattle.std.specs.List.{prefix_len};
ghost use Rattle.std.specs.Prelude.{◌≡◌, ◌==◌, ◌≤◌, ◌<◌, ◌^◌, ◌&&◌, ◌||◌, ◌++◌, ◌∷◌, [], drop, length, not, slice_index, take, true, List, ℕ, IfSome, MatchOption};

use crate::scanner::is_word_byte;
use crate::tokens::Token;
use crate::words::{byte_at, with_digit};
use base_budget::Entry;

/// The name, or the number below 2^32, that the text begins with, and the text after it. None where it begins with another
/// token, or where that takes a closer look.
pub(crate) fn figure_ahead(text: &[u8]) -> Option<(Token, &[u8])>
    ensures exact { IfSome result (λ x. Cuts (x.0 ∷ []) text.now x.1.now × (length x.1.now < length text.now)) }
    ensures ranged { IfSome result (λ x. IsRangedToken x.0) }
{
    if let Some((x, rest)) = name_ahead(text) {
        return Some((Token::Name(x), rest));
    }
    let (n, rest) = number_ahead(text)?;
    Some((Token::Number(u128::from(n)), rest))
}

/// The name that the text begins with, where a word may end after it, and the text after it. None exactly where there is no such
/// name.
pub fn name_ahead(text: &[u8]) -> Option<(u32, &[u8])>
    ensures exact { MatchOption result (HasNoneEnded IsName text.now) (λ x. Cuts (t.Name x.0 ∷ []) text.now x.1.now) }
    ensures ended { IfSome result (λ x. ends_word x.1.now ≡ true) }
    ensures shorter { IfSome result (λ x. length x.1.now < length text.now) }
{
    let (first, behind) = text.split_first()?;
    if *first != b'c' {
        return None;
    }
    let (x, rest) = index_ahead(behind)?;
    Some((x, rest))
}

/// The number below 2^32 that the text begins with, where a word may end after it, and the text after it. None exactly where there
/// is no such number.
pub fn number_ahead(text: &[u8]) -> Option<(u32, &[u8])>
    ensures exact { MatchOption result (HasNoneEnded IsSmallNumber text.now) (λ x. Cuts (t.Number x.0 ∷ []) text.now x.1.now) }
    ensures ended { IfSome result (λ x. ends_word x.1.now ≡ true) }
    ensures shorter { IfSome result (λ x. length x.1.now < length text.now) }
{
    let (n, rest) = index_ahead(text)?;
    Some((n, rest))
}

/// The entry of a log that the text begins with, and the text after it. None where it begins with another token, or where
/// that takes a closer look.
pub(crate) fn entry_ahead(text: &[u8]) -> Option<(Entry, &[u8])>
    ensures exact { IfSome result (λ x. Cuts (t.Step x.0 ∷ []) text.now x.1.now) }
    ensures shorter { IfSome result (λ x. length x.1.now < length text.now) }
{
    let (first, behind) = text.split_first()?;
    let first = *first;
    if first == b'm' {
        let (i, j, rest) = pair_ahead(behind)?;
        return Some((Entry::Merge(i, j), rest));
    }
    if first == b'n' {
        let (i, rest) = index_ahead(behind)?;
        return Some((Entry::Apart(i), rest));
    }
    if first == b'e' {
        let (i, rest) = index_ahead(behind)?;
        return Some((Entry::Equation(i), rest));
    }
    if first == b's' {
        let (i, rest) = index_ahead(behind)?;
        return Some((Entry::Shift(i), rest));
    }
    if first == b'x' && ends_word(behind) {
        return Some((Entry::Exact, behind));
    }
    None
}

/// The two numbers below 2^32 with a `,` between them that the text begins with, where a word may end after them, and the
/// text after them.
fn pair_ahead(text: &[u8]) -> Option<(u32, u32, &[u8])>
    ensures exact { IfSome result (λ x. (text.now ≡ decimal x.0 ++ 44 ∷ (decimal x.1 ++ x.2.now)) × (ends_word x.2.now ≡ true)) }
    ensures shorter { IfSome result (λ x. length x.2.now < length text.now) }
{
    let (i, inner) = numeral_ahead(text)?;
    let (comma, second) = inner.split_first()?;
    if *comma != b',' {
        return None;
    }
    let (j, rest) = index_ahead(second)?;
    Some((i, j, rest))
}

/// The number below 2^32 that the text begins with, where a word may end after it, and the text after it.
fn index_ahead(text: &[u8]) -> Option<(u32, &[u8])>
    ensures exact { MatchOption result (HasNoNumber ends_word text.now) (λ x. (text.now ≡ decimal x.0 ++ x.1.now) × (ends_word x.1.now ≡ true)) }
    ensures shorter { IfSome result (λ x. length x.1.now < length text.now) }
{
    let (value, rest) = numeral_ahead(text)?;
    if ends_word(rest) {
        Some((value, rest))
    } else {
        None
    }
}

/// The number below 2^32 that the text begins with, and the text after its digits.
fn numeral_ahead(text: &[u8]) -> Option<(u32, &[u8])>
    ensures exact { MatchOption result (HasNoNumber ends_digits text.now) (λ x. text.now ≡ decimal x.0 ++ x.1.now) }
    ensures behind { IfSome result (λ x. x.1.now ≡ drop (prefix_len is_ascii_digit text.now) text.now) }
    ensures shorter { IfSome result (λ x. length x.1.now < length text.now) }
{
    let (first, behind) = text.split_first()?;
    if !begins_numeral(*first, behind) {
        return None;
    }
    let (value, rest) = digits_ahead(text)?;
    Some((value, rest))
}

/// The text after the word `true` that it begins with, where a word may end after it. None exactly where it does not begin so.
pub fn true_ahead(text: &[u8]) -> Option<&[u8]>
    ensures exact { MatchOption result (HasNoneEnded (λ x. x ≡ t.True) text.now) (λ rest. Cuts (t.True ∷ []) text.now rest.now) }
    ensures ended { IfSome result (λ rest. ends_word rest.now ≡ true) }
    ensures within { IfSome result (λ rest. length rest.now ≤ length text.now) }
{
    let rest = word_ahead(text, b"true".as_slice())?;
    Some(rest)
}

/// The text after this word, where it comes first and a word may end after it.
pub(crate) fn word_ahead<'a>(text: &'a [u8], word: &[u8]) -> Option<&'a [u8]>
    ensures exact { MatchOption result ((rest : List ℕ) → ends_word rest ≡ true → text.now ≡ word.now ++ rest → ⊥) (λ rest. (text.now ≡ word.now ++ rest.now) × (ends_word rest.now ≡ true)) }
    ensures within { IfSome result (λ rest. length rest.now ≤ length text.now) }
{
    let rest = behind_bytes(text, word)?;
    if ends_word(rest) { Some(rest) } else { None }
}

/// The text after these bytes, where they come first.
pub fn behind_bytes<'a>(text: &'a [u8], front: &[u8]) -> Option<&'a [u8]>
    ensures { MatchOption result ((rest : List ℕ) → text.now ≡ front.now ++ rest → ⊥) (λ rest. text.now ≡ front.now ++ rest.now) }
{
    let mut rest = text;
    for byte in front {
        let (first, behind) = rest.split_first()?;
        if *first != *byte {
            return None;
        }
        rest = behind;
    }
    Some(rest)
}

/// The word of a rule that the text begins with, and the text after it. None where it begins with another token, or where that
/// takes a closer look.
pub(crate) fn row_word_ahead(text: &[u8]) -> Option<(Token, &[u8])>
    ensures exact { IfSome result (λ x. Cuts (x.0 ∷ []) text.now x.1.now × (length x.1.now < length text.now)) }
    ensures ranged { IfSome result (λ x. IsRangedToken x.0) }
{
    let (first, _behind) = text.split_first()?;
    let (token, letters) = row_word_with(*first)?;
    let rest = word_ahead(text, letters)?;
    Some((token, rest))
}

/// The word of a rule with this first letter, and how it is written.
fn row_word_with(first: u8) -> Option<(Token, &'static [u8])>
    ensures exact { IfSome result (λ x. IsProofToken x.0 × (x.1.now ≡ spelling x.0)) }
    ensures some { IfSome result (λ x. 0 < length x.1.now) }
{
    match first {
        b'a' => Some((Token::Alpha, b"alpha".as_slice())),
        b'b' => Some((Token::Beta, b"beta".as_slice())),
        b'c' => Some((Token::Close, b"close".as_slice())),
        b'd' => Some((Token::Delta, b"delta".as_slice())),
        b'g' => Some((Token::Gamma, b"gamma".as_slice())),
        b't' => Some((Token::Trivial, b"trivial".as_slice())),
        _ => None,
    }
}

/// Whether a numeral begins with this byte before this text: a digit, and no 0 before another.
fn begins_numeral(first: u8, behind: &[u8]) -> bool
    ensures { result ≡ (is_ascii_digit first && (not (first == 48) || not (is_ascii_digit (slice_index behind.now 0)))) }
{
    first.is_ascii_digit() && (first != b'0' || !byte_at(behind, 0).is_ascii_digit())
}

/// The value of the digits at the front, and the text after them; none where it is above 2^32 − 1.
fn digits_ahead(text: &[u8]) -> Option<(u32, &[u8])>
    ensures { MatchOption result (2 ^ 32 ≤ decimal_value (take (prefix_len is_ascii_digit text.now) text.now)) (λ x. (x.0 ≡ decimal_value (take (prefix_len is_ascii_digit text.now) text.now)) × (x.1.now ≡ drop (prefix_len is_ascii_digit text.now) text.now)) }
{
    let mut value: u32 = 0;
    let mut rest = text;
    while let Some((digit, more)) = rest.split_first() {
        if !digit.is_ascii_digit() {
            return Some((value, rest));
        }
        value = with_digit(value, *digit)?;
        rest = more;
    }
    Some((value, rest))
}

/// Whether a word that is neither `princess` nor a merge ends before this text.
fn ends_word(rest: &[u8]) -> bool
    ensures { result ≡ ends_word rest.now }
{
    let Some((byte, _behind)) = rest.split_first() else {
        return true;
    };
    let byte = *byte;
    !is_word_byte(byte) && byte != b','
}
