// Terms of a script as they have to be written, made of its tokens.

use crate::foreign::{is_among, paired};
use crate::page::Page;
use crate::script::{Script, Span};
use linear_term::Memory;
use std::alloc::Global;

/// How many bytes of a whole term are shown, and how many of a call.
const TERM: usize = 60;

const CALL: usize = 40;

/// A term, or the part of a command, as it has to be written.
#[derive(Clone, Copy)]
pub enum Phrase<'a> {
    /// An operator in front of its two members; without them where there are more or fewer.
    Infix(Script<'a>, &'a [u8], Option<(Span, Span)>),
    /// The name of a function in front of the members of the list that the token opens.
    Call(Script<'a>, &'a [u8], usize),
}

/// Whether a text is an operator that stands between its members elsewhere.
pub fn is_operator(text: &[u8]) -> bool {
    is_infix(text) || operator_for(text).is_some()
}

/// Whether a text is an operator here.
pub fn is_infix(text: &[u8]) -> bool {
    is_among(
        text,
        &[
            "=", "<", "<=", ">", ">=", "+", "-", "*", "and", "or", "xor", "=>", "distinct",
        ],
    )
}

/// The operator or the word that is written for one of other languages.
pub fn operator_for(text: &[u8]) -> Option<&'static str> {
    paired(
        text,
        &[
            ("==", "="),
            ("<->", "="),
            ("<=>", "="),
            ("iff", "="),
            ("equiv", "="),
            ("&&", "and"),
            ("&", "and"),
            ("AND", "and"),
            ("And", "and"),
            ("||", "or"),
            ("OR", "or"),
            ("Or", "or"),
            ("NOT", "not"),
            ("Not", "not"),
            ("~", "not"),
            ("implies", "=>"),
            ("->", "=>"),
            ("==>", "=>"),
            ("impl", "=>"),
            ("!=", "distinct"),
            ("<>", "distinct"),
            ("/=", "distinct"),
            ("=/=", "distinct"),
            ("neq", "distinct"),
            ("=<", "<="),
            ("if", "ite"),
            ("True", "true"),
            ("TRUE", "true"),
            ("False", "false"),
            ("FALSE", "false"),
        ],
    )
}

/// The list that token k opens with its operator in front, where that stands in the second place.
pub fn infix<'a>(script: Script<'a>, k: usize) -> Option<Phrase<'a>> {
    if !script.opens(k) || script.count(k) < 3 {
        return None;
    }
    let operator = script.member_text(k, 1);
    if !is_operator(operator) || is_operator(script.member_text(k, 0)) {
        return None;
    }
    Some(in_front(script, k, 0))
}

/// An operator in front of the members on both its sides, of which the first has this number in the list that token k opens;
/// without them where more follow.
pub fn in_front<'a>(script: Script<'a>, k: usize, first: usize) -> Phrase<'a> {
    let operator = script.member_text(k, first.saturating_add(1));
    let is_whole = script.count(k) == first.saturating_add(3);
    let sides = match (
        script.member(k, first),
        script.member(k, first.saturating_add(2)),
    ) {
        (Some(left), Some(right)) if is_whole => Some((left, right)),
        _ => None,
    };
    Phrase::Infix(script, operator, sides)
}

/// Puts a phrase.
pub(crate) fn put_phrase(page: &mut Page, phrase: &Phrase) -> Result<(), Memory> {
    match phrase {
        Phrase::Infix(script, operator, sides) => put_infix(page, script, operator, *sides),
        Phrase::Call(script, name, k) => {
            let mut call = Page::new(page.allocator());
            call.put(b"(")?;
            call.put(name)?;
            for i in 0..script.count(*k) {
                call.put(b" ")?;
                put_member(&mut call, script, *k, i)?;
            }
            call.put(b")")?;
            page.put_short(call.bytes(), CALL)
        }
    }
}

fn put_infix(
    page: &mut Page,
    script: &Script,
    operator: &[u8],
    sides: Option<(Span, Span)>,
) -> Result<(), Memory> {
    let operator = match operator_for(operator) {
        Some(written) => written.as_bytes(),
        None => operator,
    };
    if let Some((left, right)) = sides {
        let term = whole_term(page.allocator(), script, operator, left, right)?;
        if term.bytes().len() <= TERM {
            return page.put(term.bytes());
        }
    }
    page.put(b"(")?;
    page.put(operator)?;
    page.put(b" .. ..)")
}

fn whole_term(
    alloc: Global,
    script: &Script,
    operator: &[u8],
    left: Span,
    right: Span,
) -> Result<Page, Memory> {
    let mut term = Page::new(alloc);
    term.put(b"(")?;
    term.put(operator)?;
    term.put(b" ")?;
    put_span(&mut term, script, left)?;
    term.put(b" ")?;
    put_span(&mut term, script, right)?;
    term.put(b")")?;
    Ok(term)
}

fn put_member(page: &mut Page, script: &Script, k: usize, number: usize) -> Result<(), Memory> {
    match script.member(k, number) {
        Some(span) => put_span(page, script, span),
        None => Ok(()),
    }
}

/// Puts tokens with blanks between them, but for those inside of parentheses.
fn put_span(page: &mut Page, script: &Script, span: Span) -> Result<(), Memory> {
    for i in span.from..span.to {
        let text = script.text(i);
        let is_glued = i == span.from || text == b")".as_slice() || script.follows_open(i);
        if !is_glued {
            page.put(b" ")?;
        }
        page.put(text)?;
    }
    Ok(())
}
