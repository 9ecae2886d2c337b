// Integers of 128 bits, checked. The least of them is left out, so that each number has an opposite.

use crate::fault::Fault;

#[inline(always)]
pub fn add(a: i128, b: i128) -> Result<i128, Fault> {
    match a.checked_add(b) {
        Some(c) if c != i128::MIN => Ok(c),
        _ => Err(Fault::Overflow),
    }
}

#[inline(always)]
pub fn sub(a: i128, b: i128) -> Result<i128, Fault> {
    match a.checked_sub(b) {
        Some(c) if c != i128::MIN => Ok(c),
        _ => Err(Fault::Overflow),
    }
}

#[inline(always)]
pub fn mul(a: i128, b: i128) -> Result<i128, Fault> {
    if let Ok(x) = i64::try_from(a)
        && let Ok(y) = i64::try_from(b)
    {
        return Ok(i128::from(x).wrapping_mul(i128::from(y)));
    }
    match a.checked_mul(b) {
        Some(c) if c != i128::MIN => Ok(c),
        _ => Err(Fault::Overflow),
    }
}

/// m a + n b.
#[inline(always)]
pub fn mac(m: i128, a: i128, n: i128, b: i128) -> Result<i128, Fault> {
    add(mul(m, a)?, mul(n, b)?)
}

/// The greatest number that divides both; 0 where both are 0.
pub fn gcd(a: i128, b: i128) -> Result<i128, Fault> {
    i128::try_from(gcd_unsigned(a.unsigned_abs(), b.unsigned_abs())).map_err(|_| Fault::Overflow)
}

fn gcd_unsigned(mut a: u128, mut b: u128) -> u128 {
    while b != 0 {
        if let Ok(x) = u64::try_from(a)
            && let Ok(y) = u64::try_from(b)
        {
            return u128::from(gcd_of_words(x, y));
        }
        let r = a % b;
        a = b;
        b = r;
    }
    a
}

pub fn gcd_of_words(mut a: u64, mut b: u64) -> u64 {
    while b != 0 {
        let r = a % b;
        a = b;
        b = r;
    }
    a
}

/// a / d, rounded down.
pub fn floor_div(a: i128, d: i128) -> Result<i128, Fault> {
    let q = a.checked_div(d).ok_or(Fault::Overflow)?;
    let r = a.checked_rem(d).ok_or(Fault::Overflow)?;
    if r != 0 && (r < 0) != (d < 0) {
        return sub(q, 1);
    }
    Ok(q)
}

/// What a division by d leaves, from 0 on.
pub fn remainder(a: i128, d: i128) -> Result<i128, Fault> {
    let r = a.checked_rem(d).ok_or(Fault::Overflow)?;
    if r < 0 {
        return add(r, d.checked_abs().ok_or(Fault::Overflow)?);
    }
    Ok(r)
}
