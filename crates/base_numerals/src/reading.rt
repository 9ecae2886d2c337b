// The value of a numeral.

ghost use Rattle.base_numerals.specs.Numerals.{decimal_value};
ghost use Rattle.std.specs.Prelude.{◌≡◌, ◌≤◌, ◌<◌, ◌+◌, ◌-◌, ◌*◌, ◌^◌, pos, MatchOption};

/// The greatest numeral, 2^127 − 1.
const GREATEST: u128 = i128::MAX as u128;

/// The value of these decimal digits; none where it is above 2^127 − 1.
pub fn numeral(digits: &[u8]) -> Option<i128>
    ensures exact { MatchOption result (2 ^ 127 ≤ decimal_value digits.now) (λ value. (value ≡ pos (decimal_value digits.now)) × (decimal_value digits.now < 2 ^ 127)) }
{
    let mut value: u128 = 0;
    for digit in digits {
        value = with_digit(value, *digit)?;
    }
    Some(value as i128)
}

/// The value with one more digit after it; none where it is above 2^127 − 1.
fn with_digit(value: u128, digit: u8) -> Option<u128>
    ensures exact { MatchOption result (2 ^ 127 ≤ 10 * value + (digit - 48)) (λ more. (more ≡ 10 * value + (digit - 48)) × (more < 2 ^ 127)) }
{
    let more = value
        .checked_mul(10)?
        .checked_add(u128::from(digit.saturating_sub(b'0')))?;
    if more > GREATEST { None } else { Some(more) }
}
