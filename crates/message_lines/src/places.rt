// Lines and columns of a text, and how a line of it is shown with a mark below a place.

use crate::messages::Place;
use crate::page::Page;
use linear_term::Memory;

/// How many bytes of a line are shown before its place, and how many in all.
const BEFORE: usize = 70;

const SHOWN: usize = 140;

/// A line of a text.
#[derive(Clone, Copy)]
pub struct Line<'a> {
    /// Its number, from 1 on.
    pub number: u64,
    /// The offset of its first byte.
    pub from: usize,
    /// Its bytes, without the line feed.
    pub text: &'a [u8],
    /// Whether it is a line at all: after the last line feed nothing need stand.
    pub is_there: bool,
}

/// A text up to the first such byte, and what stands after that byte.
pub fn cut(text: &[u8], byte: u8) -> (&[u8], Option<&[u8]>) {
    for (i, found) in text.iter().enumerate() {
        if *found == byte {
            let (front, rest) = text.split_at(i);
            return (front, rest.get(1..));
        }
    }
    (text, None)
}

/// The line in which a byte of a text lies.
pub fn line_at(text: &[u8], place: usize) -> Line<'_> {
    let mut number: u64 = 1;
    let mut from = 0;
    for (i, byte) in text.iter().enumerate() {
        if i >= place {
            break;
        }
        if *byte == b'\n' {
            number = number.saturating_add(1);
            from = i + 1;
        }
    }
    let rest = text.get(from..).unwrap_or(&[]);
    Line {
        number,
        from,
        text: cut(rest, b'\n').0,
        is_there: !rest.is_empty(),
    }
}

/// The line with this number, from 1 on.
pub fn numbered_line(text: &[u8], number: u64) -> Line<'_> {
    let mut seen: u64 = 1;
    for (i, byte) in text.iter().enumerate() {
        if seen >= number {
            return line_at(text, i);
        }
        if *byte == b'\n' {
            seen = seen.saturating_add(1);
        }
    }
    line_at(text, text.len())
}

/// The line and the column of a byte of a text.
pub(crate) fn spot_at(text: &[u8], place: usize) -> Place {
    let line = line_at(text, place);
    Place {
        byte: place as u64,
        line: line.number,
        column: column_of(&line, place),
    }
}

/// Puts the line of a place, and below it a mark at the place. Control characters are shown as blanks, and where the line is no
/// UTF-8, its bytes outside of ASCII as question marks.
pub(crate) fn put_mark(page: &mut Page, text: &[u8], place: usize) -> Result<(), Memory> {
    let line = line_at(text, place);
    if !line.is_there {
        return Ok(());
    }
    let column = place.saturating_sub(line.from);
    let from = column.saturating_sub(BEFORE);
    let shown = line.text.get(from..).unwrap_or(&[]);
    let is_text = str::from_utf8(line.text).is_ok();
    for byte in shown.get(..SHOWN).unwrap_or(shown) {
        page.put(&[shown_byte(*byte, is_text)])?;
    }
    page.put(b"\n")?;
    let before = shown.get(..column.saturating_sub(from)).unwrap_or(shown);
    for byte in before {
        if *byte == b'\t' {
            page.put(b"\t")?;
        } else if !goes_on(*byte) {
            page.put(b" ")?;
        }
    }
    page.put(b"^\n")
}

/// The column of a place, from 1 on. A byte that goes on a character of several bytes takes no column.
fn column_of(line: &Line, place: usize) -> u64 {
    let behind = place.saturating_sub(line.from);
    let mut column: u64 = 1;
    for byte in line.text.get(..behind).unwrap_or(line.text) {
        if !goes_on(*byte) {
            column = column.saturating_add(1);
        }
    }
    column
}

/// Whether a byte goes on a character of several bytes.
fn goes_on(byte: u8) -> bool {
    (0x80..=0xBF).contains(&byte)
}

/// A byte as it is shown, in a line of UTF-8 or in another one.
fn shown_byte(byte: u8, is_text: bool) -> u8 {
    if byte != b'\t' && byte.is_ascii_control() {
        b' '
    } else if is_text || byte.is_ascii() {
        byte
    } else {
        b'?'
    }
}
