// A slip: the sentence that says what is wrong, and what stands in its holes.

use crate::page::Page;
use crate::places::cut;
use crate::script_phrases::{Phrase, put_phrase};
use linear_term::Memory;

/// How many bytes of a token are shown.
const TOKEN: usize = 40;

/// What stands in a hole of a sentence.
#[derive(Clone, Copy)]
pub enum Hole<'a> {
    Empty,
    /// A text as it is.
    Text(&'a [u8]),
    /// The front of a token.
    Token(&'a [u8]),
    /// This many arguments, in words.
    Arguments(usize),
    /// A number.
    Number(u64),
    /// A number in groups of three digits.
    Grouped(u64),
    /// Some tokens of a script in another order.
    Phrase(Phrase<'a>),
}

/// A sentence, and what stands in its holes.
#[derive(Clone, Copy)]
pub struct Slip<'a> {
    pub sentence: &'static str,
    /// The token at the place.
    pub token: Hole<'a>,
    /// The token before it.
    pub before: &'a [u8],
    pub name: Hole<'a>,
    pub other: Hole<'a>,
    /// The number of a line.
    pub line: u64,
}

impl<'a> Slip<'a> {
    /// A sentence without holes, but for the tokens at the place.
    pub fn new(sentence: &'static str) -> Slip<'a> {
        Slip {
            sentence,
            token: Hole::Empty,
            before: b"",
            name: Hole::Empty,
            other: Hole::Empty,
            line: 0,
        }
    }

    /// A sentence that names something.
    pub fn named(sentence: &'static str, name: &'a [u8]) -> Slip<'a> {
        Slip::new(sentence).with_name(Hole::Text(name))
    }

    /// A sentence about a name that is declared in this line with this many arguments, and used with this many.
    pub fn counted(sentence: &'static str, declared: usize, used: usize, line: u64) -> Slip<'a> {
        Slip {
            sentence,
            token: Hole::Empty,
            before: b"",
            name: Hole::Arguments(declared),
            other: Hole::Arguments(used),
            line,
        }
    }

    /// The same with this name.
    pub fn with_name(self, name: Hole<'a>) -> Slip<'a> {
        let mut slip = self;
        slip.name = name;
        slip
    }

    /// The same with this other name.
    pub fn with_other(self, other: Hole<'a>) -> Slip<'a> {
        let mut slip = self;
        slip.other = other;
        slip
    }

    /// The same with the number of this line.
    pub fn with_line(self, line: u64) -> Slip<'a> {
        let mut slip = self;
        slip.line = line;
        slip
    }

    /// The same at this token, after that one.
    pub fn at(self, token: Hole<'a>, before: &'a [u8]) -> Slip<'a> {
        let mut slip = self;
        slip.token = token;
        slip.before = before;
        slip
    }
}

/// Puts the sentence of a slip with its holes filled. What stands in braces and names no hole is text.
pub(crate) fn put_slip(page: &mut Page, slip: &Slip) -> Result<(), Memory> {
    let mut rest = slip.sentence.as_bytes();
    for _ in 0..slip.sentence.len() {
        let (front, behind) = cut(rest, b'{');
        page.put(front)?;
        let Some(behind) = behind else {
            return Ok(());
        };
        let (hole, after) = cut(behind, b'}');
        put_named_hole(page, slip, hole)?;
        rest = after.unwrap_or(&[]);
    }
    Ok(())
}

fn put_named_hole(page: &mut Page, slip: &Slip, name: &[u8]) -> Result<(), Memory> {
    match name {
        b"token" => put_hole(page, &slip.token),
        b"before" => page.put(slip.before),
        b"name" => put_hole(page, &slip.name),
        b"other" => put_hole(page, &slip.other),
        b"line" => page.put_number(slip.line),
        _ => {
            page.put(b"{")?;
            page.put(name)?;
            page.put(b"}")
        }
    }
}

fn put_hole(page: &mut Page, hole: &Hole) -> Result<(), Memory> {
    match hole {
        Hole::Empty => Ok(()),
        Hole::Text(text) => page.put(text),
        Hole::Token(text) => page.put_short(text, TOKEN),
        Hole::Arguments(0) => page.put(b"no arguments"),
        Hole::Arguments(1) => page.put(b"1 argument"),
        Hole::Arguments(count) => {
            page.put_number(*count as u64)?;
            page.put(b" arguments")
        }
        Hole::Number(number) => page.put_number(*number),
        Hole::Grouped(number) => page.put_grouped(*number),
        Hole::Phrase(phrase) => put_phrase(page, phrase),
    }
}
