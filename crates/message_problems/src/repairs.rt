// Slips of a problem's file whose right form is known: where they stand, and what is written there.

use crate::problem::{Problem, ends_term, is_block, is_relation};
use message_lines::{sign_for_symbol, sign_for_word};
use pri_tokens::Terminal;

/// What stands in place of the bytes from the first place up to the second one, and whether no declaration is lost by it.
#[derive(Clone, Copy)]
pub(crate) struct Repair {
    pub(crate) from: usize,
    pub(crate) to: usize,
    pub(crate) form: &'static str,
    pub(crate) keeps_names: bool,
}

impl Repair {
    /// A form for some bytes that is not longer than they are.
    fn fitting(from: usize, to: usize, form: &'static str) -> Option<Repair> {
        if form.len() > to.saturating_sub(from) {
            return None;
        }
        Some(Repair {
            from,
            to,
            form,
            keeps_names: true,
        })
    }
}

/// The repair of the slip at token k, with which no file goes on.
pub(crate) fn find_repair(p: &Problem, k: usize) -> Option<Repair> {
    if let Some(repair) = glued_repair(p, k) {
        return Some(repair);
    }
    if let Some(repair) = byte_repair(p, k) {
        return Some(repair);
    }
    if let Some(repair) = word_repair(p, k) {
        return Some(repair);
    }
    if let Some(repair) = semicolon_repair(p, k) {
        return Some(repair);
    }
    block_repair(p, k)
}

/// The repair of a sign of another language that is two tokens here: the refused one is the second, or after a relation the first.
fn glued_repair(p: &Problem, k: usize) -> Option<Repair> {
    let first = k.checked_sub(1)?;
    if p.touches_next(first) {
        return pair_repair(p, first);
    }
    if is_relation(p.terminal(k)) && ends_term(p.terminal(first)) && p.touches_next(k) {
        return pair_repair(p, k);
    }
    None
}

/// The repair of the two tokens from token k on, or of the three.
fn pair_repair(p: &Problem, k: usize) -> Option<Repair> {
    let next = k.checked_add(1)?;
    let third = p.terminal(next.checked_add(1)?);
    let (from, to) = (p.offset(k), p.end_of(next));
    let form = match (p.terminal(k)?, p.terminal(next)?) {
        (Terminal::Equal, Terminal::Equal) if third == Some(Terminal::Greater) => {
            return Repair::fitting(from, to.checked_add(1)?, "->");
        }
        (Terminal::Equal, Terminal::Greater) => "->",
        (Terminal::AtMost, Terminal::Greater) => "<->",
        (Terminal::Equal, Terminal::Equal) => "=",
        (Terminal::And, Terminal::And) => "&",
        (Terminal::Or, Terminal::Or) => "|",
        (Terminal::Equal, Terminal::Less) => "<=",
        (Terminal::Less, Terminal::Greater) | (Terminal::Unequal, Terminal::Equal) => "!=",
        (Terminal::Minus, Terminal::Implies) => "->",
        _ => return None,
    };
    Repair::fitting(from, to, form)
}

/// The repair of a byte that begins no token.
fn byte_repair(p: &Problem, k: usize) -> Option<Repair> {
    if p.terminal(k)? != Terminal::Bad {
        return None;
    }
    let from = p.offset(k);
    let rest = p.bytes.get(from..)?;
    if rest.starts_with(b"~") {
        return Repair::fitting(from, from.checked_add(1)?, "!");
    }
    if rest.starts_with(b"/\\") {
        return Repair::fitting(from, from.checked_add(2)?, "&");
    }
    if rest.starts_with(b"\\/") {
        return Repair::fitting(from, from.checked_add(2)?, "|");
    }
    let sign = sign_for_symbol(rest)?;
    if sign.starts_with("as") {
        return None;
    }
    Repair::fitting(from, behind_character(p.bytes, from), sign)
}

/// The offset after the character that begins at an offset.
fn behind_character(bytes: &[u8], from: usize) -> usize {
    let rest = bytes.get(from..).unwrap_or(&[]);
    for (i, byte) in rest.iter().enumerate() {
        if i > 0 && !(0x80..=0xBF).contains(byte) {
            return from.saturating_add(i);
        }
    }
    bytes.len()
}

/// The repair of a connective in words, which is the refused token or the one before it.
fn word_repair(p: &Problem, k: usize) -> Option<Repair> {
    if let Some(sign) = sign_for_word(p.text(k)) {
        return Repair::fitting(p.offset(k), p.end_of(k), sign);
    }
    let before = k.checked_sub(1)?;
    let sign = sign_for_word(p.text(before))?;
    Repair::fitting(p.offset(before), p.end_of(before), sign)
}

/// The repair of a declaration without its `;`, where a blank stands in the place of that.
fn semicolon_repair(p: &Problem, k: usize) -> Option<Repair> {
    let before = k.checked_sub(1)?;
    let is_end = p.terminal(k)? == Terminal::CloseBrace && ends_term(p.terminal(before));
    if !is_end || !is_declaration(p.around(k).block) {
        return None;
    }
    let from = p.end_of(before);
    Repair::fitting(from, p.offset(k).min(from.checked_add(1)?), ";")
}

/// Whether a block is one of declarations.
fn is_declaration(block: Option<Terminal>) -> bool {
    is_block(block) && !matches!(block, Some(Terminal::Problem | Terminal::Interpolant))
}

/// The repair of any other slip in a block of declarations: the block is emptied, and its names are lost.
fn block_repair(p: &Problem, k: usize) -> Option<Repair> {
    if !is_declaration(p.around(k).block) {
        return None;
    }
    let open = open_brace(p, k)?;
    let close = close_brace(p, k)?;
    Some(Repair {
        from: p.end_of(open),
        to: p.offset(close),
        form: "",
        keeps_names: false,
    })
}

/// The last `{` before token k.
fn open_brace(p: &Problem, k: usize) -> Option<usize> {
    for i in (0..k.min(p.len())).rev() {
        if p.terminal(i) == Some(Terminal::OpenBrace) {
            return Some(i);
        }
    }
    None
}

/// The first `}` from token k on, if no block begins before it.
fn close_brace(p: &Problem, k: usize) -> Option<usize> {
    for i in k..p.len() {
        if p.terminal(i) == Some(Terminal::CloseBrace) {
            return Some(i);
        }
        if is_block(p.terminal(i)) {
            return None;
        }
    }
    None
}
