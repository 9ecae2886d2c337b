// What a line of an answer says of a refusal.

use crate::places::cut;

/// A refusal: its name, and the place or the number after it.
#[derive(Clone, Copy)]
pub struct Refusal<'a> {
    pub name: &'a [u8],
    pub place: Option<u64>,
}

/// The refusal that an answer names after this label.
pub fn find_refusal<'a>(answer: &'a [u8], label: &[u8]) -> Option<Refusal<'a>> {
    let line = cut(answer, b'\n').0;
    let (name, behind) = cut(line.strip_prefix(label)?, b' ');
    let place = match behind {
        Some(behind) => number(behind.strip_prefix(b"at ").unwrap_or(behind)),
        None => None,
    };
    Some(Refusal { name, place })
}

/// The last line of an answer, without its line feed.
pub fn last_line(answer: &[u8]) -> &[u8] {
    let mut last = answer;
    for _ in 0..answer.len() {
        match cut(last, b'\n').1 {
            Some(behind) if !behind.is_empty() => last = behind,
            _ => return cut(last, b'\n').0,
        }
    }
    last
}

/// The number that decimal digits write, where it has 64 bits at most.
pub fn number(digits: &[u8]) -> Option<u64> {
    if digits.is_empty() {
        return None;
    }
    let mut value: u64 = 0;
    for byte in digits {
        if !byte.is_ascii_digit() {
            return None;
        }
        value = value
            .checked_mul(10)?
            .checked_add(byte.saturating_sub(b'0') as u64)?;
    }
    Some(value)
}
