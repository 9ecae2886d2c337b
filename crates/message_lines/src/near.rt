// Names that differ by one slip of the keyboard.

/// How many bytes a name has at least, for another one to be near it.
const SHORTEST: usize = 3;

/// Whether two texts differ by one byte, which is another one or stands in one of them alone, or by two neighbours that are
/// swapped.
pub fn is_near(one: &[u8], other: &[u8]) -> bool {
    if one.len() < SHORTEST || other.len() < SHORTEST {
        return false;
    }
    let (one, other) = differing(one, other);
    match (one, other) {
        ([], []) => false,
        ([], [_]) | ([_], []) => true,
        ([_, one_rest @ ..], [_, other_rest @ ..]) => {
            one_rest == other_rest
                || one == other_rest
                || one_rest == other
                || is_swapped(one, other)
        }
        _ => false,
    }
}

/// The first of these words that is near a text.
pub fn find_near(text: &[u8], words: &[&'static str]) -> Option<&'static str> {
    for word in words {
        if is_near(text, word.as_bytes()) {
            return Some(word);
        }
    }
    None
}

/// What is left of two texts after their common front.
fn differing<'a, 'b>(one: &'a [u8], other: &'b [u8]) -> (&'a [u8], &'b [u8]) {
    for (i, byte) in one.iter().enumerate() {
        if other.get(i) != Some(byte) {
            return (one.get(i..).unwrap_or(&[]), other.get(i..).unwrap_or(&[]));
        }
    }
    (&[], other.get(one.len()..).unwrap_or(&[]))
}

/// Whether two texts differ in the order of their first two bytes alone.
fn is_swapped(one: &[u8], other: &[u8]) -> bool {
    match (one, other) {
        ([a, b, one_rest @ ..], [c, d, other_rest @ ..]) => {
            a == d && b == c && one_rest == other_rest
        }
        _ => false,
    }
}
