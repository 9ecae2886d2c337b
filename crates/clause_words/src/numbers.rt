// Numbers as words.

ghost use Rattle.base_numerals.specs.Numerals.{decimal_value};
ghost use Rattle.proof_tokens.specs.Words.{is_numeral, numeral_of};
ghost use Rattle.std.specs.Char.{is_ascii_digit};
ghost use Rattle.std.specs.List.{list_all};
ghost use Rattle.std.specs.Prelude.{◌≡◌, ◌≤◌, ◌<◌, ◌+◌, ◌-◌, ◌*◌, ◌^◌, MatchOption, IfSome};
ghost use Rattle.linear_term.specs.Range.{InRange};
ghost use Rattle.clause_words.specs.Numbers.{index_of, integer_of, signed, size_of};

use base_numerals::numeral;

/// The number below 2^32 that the word is.
pub fn index(word: &[u8]) -> Option<u32>
    ensures { result ≡ index_of word.now }
{
    if !is_numeral(word) {
        return None;
    }
    small_value(word)
}

/// The number below 2^127 that the word is.
pub(crate) fn size(word: &[u8]) -> Option<u128>
    ensures exact { result ≡ size_of word.now }
    ensures range { IfSome result (λ n. n < 2 ^ 127) }
{
    if !is_numeral(word) {
        return None;
    }
    let n = numeral(word)?;
    Some(n.unsigned_abs())
}

/// n or -n.
pub(crate) fn signed(minus: bool, n: u128) -> i128
    requires { n < 2 ^ 127 }
    ensures exact { result ≡ signed minus n }
    ensures range { InRange result }
{
    let n = n as i128;
    if minus { -n } else { n }
}

/// The integer that the word is.
pub fn integer(word: &[u8]) -> Option<i128>
    ensures exact { result ≡ integer_of word.now }
    ensures range { IfSome result InRange }
{
    let (first, rest) = word.split_first()?;
    if *first == b'-' {
        let n = size(rest)?;
        return if n == 0 { None } else { Some(signed(true, n)) };
    }
    let n = size(word)?;
    Some(signed(false, n))
}

/// Digits, the first of which is not 0 where there are more.
fn is_numeral(digits: &[u8]) -> bool
    ensures { result ≡ is_numeral digits.now }
{
    let Some((first, rest)) = digits.split_first() else {
        return false;
    };
    let first = *first;
    first.is_ascii_digit() && are_digits(rest) && (first != b'0' || rest.is_empty())
}

/// The value of decimal digits; none where it is above 2^32 − 1.
fn small_value(digits: &[u8]) -> Option<u32>
    ensures exact { MatchOption result (2 ^ 32 ≤ decimal_value digits.now) (λ value. value ≡ decimal_value digits.now) }
{
    let mut value: u32 = 0;
    for digit in digits {
        value = with_digit(value, *digit)?;
    }
    Some(value)
}

/// The value with one more digit after it; none where it is above 2^32 − 1.
fn with_digit(value: u32, digit: u8) -> Option<u32>
    ensures exact { MatchOption result (2 ^ 32 ≤ 10 * value + (digit - 48)) (λ more. more ≡ 10 * value + (digit - 48)) }
{
    let digit = u32::from(digit.saturating_sub(b'0'));
    value.checked_mul(10)?.checked_add(digit)
}

/// Digits alone.
fn are_digits(text: &[u8]) -> bool
    ensures { result ≡ list_all is_ascii_digit text.now }
{
    text.iter().all(|byte| byte.is_ascii_digit())
}
