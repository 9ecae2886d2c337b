// Why a command of a script is refused: that it is not read, or not in its form.

use crate::script_sentences as say;
use crate::scripts::{READ, has_operator, is_read_command};
use message_lines::{Hole, Phrase, Script, Slip, find_near, in_front, is_among};
use smt_tokens::Terminal;

/// The slip at the command that token k opens.
pub(crate) fn command_slip<'a>(script: Script<'a>, k: usize) -> Slip<'a> {
    let name = script.text_behind(k, 1);
    if let Some(slip) = hyphen_slip(name, script.text_behind(k, 2)) {
        return slip;
    }
    if let Some(sentence) = unread_sentence(name) {
        return Slip::new(sentence).with_name(Hole::Token(name));
    }
    if let Some(sentence) = form_sentence(name) {
        return Slip::new(sentence).with_name(Hole::Token(name));
    }
    match name {
        b"pop" => pop_slip(script, k),
        b"assert" => assert_slip(script, k),
        _ => other_slip(name),
    }
}

/// The sentence on the form of a command.
fn form_sentence(name: &[u8]) -> Option<&'static str> {
    if let Some(sentence) = form_of_symbol(name) {
        return Some(sentence);
    }
    match name {
        b"check-sat" => Some(say::FORM_CHECK_SAT),
        b"check-sat-assuming" => Some(say::FORM_ASSUMING),
        b"push" => Some(say::FORM_PUSH),
        b"reset" | b"reset-assertions" => Some(say::FORM_RESET),
        b"echo" => Some(say::FORM_ECHO),
        b"get-info" | b"get-option" => Some(say::FORM_KEYWORD),
        b"get-value" => Some(say::FORM_VALUE),
        b"exit" => Some(say::FORM_EXIT),
        _ if name.starts_with(b"get-") && is_read_command(name) => Some(say::FORM_ALONE),
        _ => None,
    }
}

/// The sentence on the form of a command that declares or defines.
fn form_of_symbol(name: &[u8]) -> Option<&'static str> {
    match name {
        b"declare-const" | b"declare-var" => Some(say::FORM_DECLARE_CONST),
        b"declare-fun" => Some(say::FORM_DECLARE_FUN),
        b"define-fun" => Some(say::FORM_DEFINE_FUN),
        b"define-const" => Some(say::FORM_DEFINE_CONST),
        b"define-sort" => Some(say::FORM_DEFINE_SORT),
        b"define-fun-rec" => Some(say::FORM_DEFINE_REC),
        b"define-funs-rec" => Some(say::FORM_DEFINE_RECS),
        _ => None,
    }
}

/// The slip at two words that a hyphen makes a command.
fn hyphen_slip<'a>(name: &'a [u8], next: &'a [u8]) -> Option<Slip<'a>> {
    match (name, next) {
        (b"check", b"sat") => Some(Slip::new(say::HYPHEN_CHECK)),
        (b"set", b"logic") => Some(Slip::named(say::HYPHEN, b"").with_other(Hole::Text(
            b"set-logic",
        ))),
        (b"set", b"info") => Some(Slip::new(say::HYPHEN).with_other(Hole::Text(b"set-info"))),
        (b"set", b"option") => Some(Slip::new(say::HYPHEN).with_other(Hole::Text(b"set-option"))),
        (b"declare", b"const") => {
            Some(Slip::new(say::HYPHEN).with_other(Hole::Text(b"declare-const")))
        }
        (b"declare", b"fun") => Some(Slip::new(say::HYPHEN).with_other(Hole::Text(b"declare-fun"))),
        (b"define", b"fun") => Some(Slip::new(say::HYPHEN).with_other(Hole::Text(b"define-fun"))),
        (b"define", b"const") => {
            Some(Slip::new(say::HYPHEN).with_other(Hole::Text(b"define-const")))
        }
        _ => None,
    }
}

/// Commands that declare sorts.
const OF_SORTS: [&str; 4] = [
    "declare-sort",
    "declare-datatype",
    "declare-datatypes",
    "declare-sort-parameter",
];

/// The sentence of a command that is not read.
fn unread_sentence(name: &[u8]) -> Option<&'static str> {
    if name.starts_with(b"get-") && !is_read_command(name) {
        return Some(say::LEAVE_OUT);
    }
    if is_among(name, &["minimize", "maximize"]) {
        return Some(say::OPTIMISE);
    }
    if is_among(name, &OF_SORTS) {
        return Some(say::SORTS);
    }
    None
}

/// The slip at a `pop`: it leaves more levels than are open, or is not in its form.
fn pop_slip<'a>(script: Script<'a>, k: usize) -> Slip<'a> {
    let is_counted = script.terminal(k.saturating_add(2)) == Some(Terminal::Numeral);
    match script.count(k) {
        1 => Slip::new(say::LEVELS_LEFT),
        2 if is_counted => Slip::new(say::LEVELS_LEFT),
        _ => Slip::new(say::FORM_POP),
    }
}

fn assert_slip<'a>(script: Script<'a>, k: usize) -> Slip<'a> {
    if script.count(k) > 2 {
        if has_operator(script, k, 2) {
            let phrase = in_front(script, k, 1);
            return Slip::new(say::ASSERT_INFIX).with_name(Hole::Phrase(phrase));
        }
        if has_operator(script, k, 1) {
            return Slip::new(say::ASSERT_OPEN);
        }
    }
    Slip::new(say::FORM_ASSERT)
}

/// The slip at any other list outside of all lists.
fn other_slip<'a>(name: &'a [u8]) -> Slip<'a> {
    let is_nameless = match name.first() {
        Some(byte) => matches!(*byte, b'(' | b')') || byte.is_ascii_digit(),
        None => false,
    };
    if is_nameless {
        return Slip::new(say::NAMELESS);
    }
    if let Some(near) = find_near(name, &READ) {
        return Slip::new(say::COMMAND_NEAR)
            .with_name(Hole::Token(name))
            .with_other(Hole::Text(near.as_bytes()));
    }
    let sentence = if is_read_command(name) {
        say::FORM
    } else {
        say::COMMAND
    };
    Slip::new(sentence).with_name(Hole::Token(name))
}
