// Lines and parts of a text, and bytes as text.

use linear_term::Memory;
use message_lines::cut;
use std::alloc::Global;
use std::string::String;

/// The first line of a text, without its line feed, and the text after it.
pub(crate) fn first_line(text: &[u8]) -> (&[u8], &[u8]) {
    let (line, behind) = cut(text, b'\n');
    (line, behind.unwrap_or(&[]))
}

/// What stands after a label in the first line that begins with it.
pub(crate) fn labelled<'a>(text: &'a [u8], label: &[u8]) -> Option<&'a [u8]> {
    let mut rest = text;
    for _ in 0..text.len() {
        let (line, behind) = first_line(rest);
        if let Some(found) = line.strip_prefix(label) {
            return Some(found);
        }
        rest = behind;
    }
    None
}

/// Bytes as text. Where they are no UTF-8, each byte outside of ASCII is a question mark.
pub(crate) fn text_of(alloc: Global, bytes: &[u8]) -> Result<String, Memory> {
    if let Ok(text) = str::from_utf8(bytes) {
        return Ok(String::from_str(alloc, text)?);
    }
    let mut text = String::new(alloc);
    for byte in bytes {
        let shown = if byte.is_ascii() {
            char::from(*byte)
        } else {
            '?'
        };
        text.push(shown)?;
    }
    Ok(text)
}
