// Which token a word is.

ghost use Rattle.base_numerals.specs.Numerals.{decimal_value};
ghost use Rattle.proof_tokens.specs.Words.{entry_of, figure_of, is_numeral, merge_of, numeral_of, part_word_of, row_word_of, sign_of, word_of};
ghost use Rattle.std.specs.Char.{is_ascii_digit};
ghost use Rattle.std.specs.List.{list_all, prefix_len};
ghost use Rattle.std.specs.Prelude.{◌≡◌, ◌≤◌, ◌<◌, ◌+◌, ◌-◌, ◌*◌, ◌^◌, length, slice_index, MatchOption};

use crate::tokens::Token;
use base_budget::Entry;
use base_numerals::numeral;

/// The token that a run of letters and digits is, with what belongs to it.
#[tactic(auto, using(crate::proofs::Figures::second_digit))]
pub fn word(text: &[u8]) -> Token
    ensures { result ≡ word_of text.now }
{
    if byte_at(text, 1).is_ascii_digit() {
        return figure(text);
    }
    if text == b"princess-proof".as_slice() {
        return Token::PrincessProof;
    }
    if text == b"charges".as_slice() {
        return Token::Charges;
    }
    if text == b"log".as_slice() {
        return Token::Log;
    }
    if text == b"gives".as_slice() {
        return Token::Gives;
    }
    if text == b"solution".as_slice() {
        return Token::Solution;
    }
    if text == b"none".as_slice() {
        return Token::Nothing;
    }
    if text == b"true".as_slice() {
        return Token::True;
    }
    if text == b"false".as_slice() {
        return Token::False;
    }
    if text == b"divides".as_slice() {
        return Token::Divides;
    }
    if text == b"notdivides".as_slice() {
        return Token::NotDivides;
    }
    row_word(text)
}

/// The token of a word that begins a row, or of another.
fn row_word(text: &[u8]) -> Token
    ensures { result ≡ row_word_of text.now }
{
    if text == b"trivial".as_slice() {
        return Token::Trivial;
    }
    if text == b"alpha".as_slice() {
        return Token::Alpha;
    }
    if text == b"beta".as_slice() {
        return Token::Beta;
    }
    if text == b"delta".as_slice() {
        return Token::Delta;
    }
    if text == b"gamma".as_slice() {
        return Token::Gamma;
    }
    if text == b"close".as_slice() {
        return Token::Close;
    }
    part_word(text)
}

/// The token of a word that speaks of the parts of a text, or of a number, a name, the use of a part or an entry.
fn part_word(text: &[u8]) -> Token
    ensures { result ≡ part_word_of text.now }
{
    if text == b"parts".as_slice() {
        return Token::Parts;
    }
    if text == b"part".as_slice() {
        return Token::Part;
    }
    figure(text)
}

/// The token of a number, a name, the use of a part or an entry.
fn figure(text: &[u8]) -> Token
    ensures { result ≡ figure_of text.now }
{
    let Some((first, rest)) = text.split_first() else {
        return Token::Bad;
    };
    let first = *first;
    if first.is_ascii_digit() {
        return match number(text) {
            Some(n) => Token::Number(n),
            None => Token::Bad,
        };
    }
    if first == b'c' {
        return match index(rest) {
            Some(x) => Token::Name(x),
            None => Token::Bad,
        };
    }
    if first == b'u' {
        return match index(rest) {
            Some(i) => Token::Use(i),
            None => Token::Bad,
        };
    }
    match entry(first, rest) {
        Some(step) => Token::Step(step),
        None => Token::Bad,
    }
}

/// The entry with this first letter and this text after it.
fn entry(first: u8, rest: &[u8]) -> Option<Entry>
    ensures { result ≡ entry_of first rest.now }
{
    if first == b'e' {
        return Some(Entry::Equation(index(rest)?));
    }
    if first == b'n' {
        return Some(Entry::Apart(index(rest)?));
    }
    if first == b's' {
        return Some(Entry::Shift(index(rest)?));
    }
    if first == b'm' {
        return merge(rest);
    }
    if !rest.is_empty() {
        return None;
    }
    if first == b'o' {
        return Some(Entry::OneSided);
    }
    if first == b'x' {
        return Some(Entry::Exact);
    }
    if first == b'd' {
        return Some(Entry::Dark);
    }
    None
}

/// The merge of two positions with a `,` between them.
fn merge(text: &[u8]) -> Option<Entry>
    ensures { result ≡ merge_of text.now }
{
    let (first, behind) = text.split_at(digits_len(text));
    let (comma, second) = behind.split_first()?;
    if *comma != b',' {
        return None;
    }
    Some(Entry::Merge(index(first)?, index(second)?))
}

/// The value of a numeral; none where it is above 2^127 − 1 or in another spelling.
fn number(digits: &[u8]) -> Option<u128>
    ensures { result ≡ numeral_of (2 ^ 127) digits.now }
{
    if !is_numeral(digits) {
        return None;
    }
    let n = numeral(digits)?;
    Some(n.unsigned_abs())
}

/// The value of a numeral; none where it is above 2^32 − 1 or in another spelling.
fn index(digits: &[u8]) -> Option<u32>
    ensures { result ≡ numeral_of (2 ^ 32) digits.now }
{
    if !is_numeral(digits) {
        return None;
    }
    small_value(digits)
}

/// The value of decimal digits; none where it is above 2^32 − 1.
fn small_value(digits: &[u8]) -> Option<u32>
    ensures exact { MatchOption result (2 ^ 32 ≤ decimal_value digits.now) (λ value. value ≡ decimal_value digits.now) }
{
    let mut value: u32 = 0;
    for digit in digits {
        value = with_digit(value, *digit)?;
    }
    Some(value)
}

/// The value with one more digit after it; none where it is above 2^32 − 1.
pub(crate) fn with_digit(value: u32, digit: u8) -> Option<u32>
    ensures exact { MatchOption result (2 ^ 32 ≤ 10 * value + (digit - 48)) (λ more. more ≡ 10 * value + (digit - 48)) }
{
    let digit = u32::from(digit.saturating_sub(b'0'));
    value.checked_mul(10)?.checked_add(digit)
}

/// Digits, the first of which is not 0 where there are more.
fn is_numeral(digits: &[u8]) -> bool
    ensures { result ≡ is_numeral digits.now }
{
    let Some((first, rest)) = digits.split_first() else {
        return false;
    };
    let first = *first;
    first.is_ascii_digit() && are_digits(rest) && (first != b'0' || rest.is_empty())
}

/// Digits alone.
pub fn are_digits(text: &[u8]) -> bool
    ensures { result ≡ list_all is_ascii_digit text.now }
{
    text.iter().all(|byte| byte.is_ascii_digit())
}

/// How many bytes at the front are digits.
#[tactic(auto, using(crate::proofs::Runs::runs))]
fn digits_len(text: &[u8]) -> usize
    ensures exact { result ≡ prefix_len is_ascii_digit text.now }
    ensures within { result ≤ length text.now }
{
    text.iter().take_while(|byte| byte.is_ascii_digit()).count()
}

/// The token of a byte that is no letter and no digit.
pub fn sign(byte: u8) -> Token
    ensures { result ≡ sign_of byte }
{
    if byte == b'\n' {
        return Token::LineFeed;
    }
    if byte == b' ' {
        return Token::Blank;
    }
    if byte == b'&' {
        return Token::And;
    }
    if byte == b'*' {
        return Token::Times;
    }
    if byte == b'+' {
        return Token::Plus;
    }
    if byte == b'-' {
        return Token::Minus;
    }
    if byte == b'=' {
        return Token::Equal;
    }
    if byte == b'|' {
        return Token::Or;
    }
    Token::Bad
}

/// The byte at this place, 0 past the end.
pub fn byte_at(text: &[u8], at: usize) -> u8
    ensures { result ≡ slice_index text.now at }
{
    text.get(at).copied().unwrap_or(0)
}
