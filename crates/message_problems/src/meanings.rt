// Why a problem's file is refused by what its names and expressions mean: the slip at the place of the refusal.

use crate::declarations::{find_declaration, has_existential};
use crate::kinds::kind_sentence;
use crate::problem::{Problem, is_constants};
use crate::problem_sentences as say;
use message_lines::{Hole, Slip, is_among, is_near, is_remainder, sign_for_word};
use pri_tokens::Terminal;

/// The slip at token k, by the name of the refusal.
pub(crate) fn meaning_slip<'a>(p: &Problem<'a>, name: &[u8], k: usize) -> Slip<'a> {
    if name == b"Undeclared".as_slice() {
        return undeclared_slip(p, k);
    }
    if name == b"Redeclared".as_slice() {
        return redeclared_slip(p, k);
    }
    if name == b"Arity".as_slice() {
        return arity_slip(p, k);
    }
    if name == b"Parts".as_slice() {
        return parts_slip(p, k);
    }
    Slip::new(match name {
        b"Kind" => kind_sentence(p, k),
        b"NonLinear" => say::NONLINEAR_PRODUCT,
        b"Many" => say::MANY_SYMBOLS,
        _ => say::IMPURE_APPLIED,
    })
}

fn redeclared_slip<'a>(p: &Problem<'a>, k: usize) -> Slip<'a> {
    let line = match find_declaration(p, p.text(k), false) {
        Some(found) => p.line(found.token),
        None => 0,
    };
    Slip::new(say::REDECLARED_AGAIN).with_line(line)
}

fn undeclared_slip<'a>(p: &Problem<'a>, k: usize) -> Slip<'a> {
    let text = p.text(k);
    if is_among(text, &["True", "TRUE", "False", "FALSE"]) {
        return Slip::new(say::UNDECLARED_TRUTH_WORD);
    }
    if p.is_bound_before(k) {
        return Slip::new(say::UNDECLARED_SCOPE);
    }
    if is_remainder(text) {
        return Slip::new(say::UNDECLARED_REMAINDER_WORD);
    }
    if let Some(sign) = sign_for_word(text) {
        return Slip::new(say::UNDECLARED_WORD_OPERATOR).with_other(Hole::Text(sign.as_bytes()));
    }
    if is_among(
        text,
        &["min", "max", "abs", "if", "forall", "exists", "part"],
    ) {
        return Slip::new(say::UNDECLARED_BACKSLASH);
    }
    if let Some(found) = find_declaration(p, text, true) {
        return Slip::named(say::UNDECLARED_CASE, p.text(found.token)).with_line(p.line(
            found.token,
        ));
    }
    if let Some(i) = find_near_name(p, text) {
        return Slip::named(say::UNDECLARED_NEAR, p.text(i)).with_line(p.line(i));
    }
    if p.terminal(k.saturating_add(1)) == Some(Terminal::OpenParenthesis) {
        return Slip::new(say::UNDECLARED_APPLIED);
    }
    Slip::new(say::UNDECLARED_OTHER)
}

/// The first name of the file that is near this one.
fn find_near_name(p: &Problem, name: &[u8]) -> Option<usize> {
    for i in 0..p.len() {
        if p.terminal(i) == Some(Terminal::Identifier) && is_near(p.text(i), name) {
            return Some(i);
        }
    }
    None
}

fn arity_slip<'a>(p: &Problem<'a>, k: usize) -> Slip<'a> {
    let Some((arity, line)) = declared_arity(p, k) else {
        return Slip::new(say::ARITY_CONSTANT);
    };
    let used = p.arguments(k);
    Slip::counted(say::ARITY_COUNT, arity, used, line)
}

/// How many arguments the name at token k is declared with, and in which line; none for a constant, and for a name that a
/// quantifier before it binds.
fn declared_arity(p: &Problem, k: usize) -> Option<(usize, u64)> {
    if p.is_bound_before(k) {
        return None;
    }
    let found = find_declaration(p, p.text(k), false)?;
    if is_constants(Some(found.block)) || found.arity == 0 {
        return None;
    }
    Some((found.arity, p.line(found.token)))
}

fn parts_slip<'a>(p: &Problem<'a>, k: usize) -> Slip<'a> {
    let terminal = p.terminal(k);
    let is_part = terminal == Some(Terminal::Part);
    let block = p.around(k).block;
    if has_existential(p) {
        return if block == Some(Terminal::Problem) && !is_part {
            Slip::new(say::PARTS_EXISTENTIAL_UNNAMED)
        } else {
            Slip::new(say::PARTS_EXISTENTIAL)
        };
    }
    if is_part {
        return Slip::new(say::PARTS_NO_COMPONENT);
    }
    if terminal == Some(Terminal::Interpolant) {
        return Slip::named(say::PARTS_MISSING, left_out(p, k));
    }
    if block != Some(Terminal::Interpolant) {
        return Slip::new(say::PARTS_UNNAMED);
    }
    for i in 0..p.len() {
        if p.terminal(i) == Some(Terminal::Part) && p.text(i.saturating_add(2)) == p.text(k) {
            return Slip::new(say::PARTS_TWICE);
        }
    }
    Slip::new(say::PARTS_UNKNOWN)
}

/// The first part of the problem that the block at token k does not name.
fn left_out<'a>(p: &Problem<'a>, k: usize) -> &'a [u8] {
    for i in 0..p.len() {
        let name = p.text(i.saturating_add(2));
        if p.terminal(i) == Some(Terminal::Part) && !is_in_block(p, k, name) {
            return name;
        }
    }
    b"one"
}

/// Whether the block at token k has this name in it.
fn is_in_block(p: &Problem, k: usize, name: &[u8]) -> bool {
    for i in k..p.len() {
        if p.terminal(i) == Some(Terminal::CloseBrace) {
            return false;
        }
        if p.text(i) == name {
            return true;
        }
    }
    false
}
