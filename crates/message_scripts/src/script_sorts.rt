// Which sort a term of a script has, as far as its first tokens and the declarations before it say.

use message_lines::{Script, is_among};
use smt_tokens::Terminal;

/// The sorts of a script.
#[derive(Clone, Copy, PartialEq, Eq)]
pub(crate) enum Sort {
    Int,
    Bool,
}

/// The sort of the term that begins at token k, if it is known.
pub(crate) fn find_sort(script: Script, k: usize) -> Option<Sort> {
    if script.terminal(k) == Some(Terminal::Numeral) {
        return Some(Sort::Int);
    }
    let name = if script.opens(k) {
        script.text_behind(k, 1)
    } else {
        script.text(k)
    };
    if is_among(name, &["+", "-", "*", "abs"]) {
        return Some(Sort::Int);
    }
    if is_among(
        name,
        &[
            "true", "false", "not", "and", "or", "xor", "=>", "=", "distinct", "<", "<=", ">",
            ">=", "forall", "exists",
        ],
    ) {
        return Some(Sort::Bool);
    }
    declared_sort(script, k, name)
}

/// The sort that a declaration before token k gives a name, unless the command around that token may bind it.
fn declared_sort(script: Script, k: usize, name: &[u8]) -> Option<Sort> {
    let command = script.outermost(k)?;
    let found = script.declaration_before(name, k)?;
    for i in command..k {
        if script.follows_open(i) && i.saturating_add(1) < k && script.text(i) == name {
            return None;
        }
    }
    let place = match script.text_behind(found, 1) {
        b"declare-const" | b"define-const" => 2,
        _ => 3,
    };
    match script.member_text(found, place) {
        b"Int" => Some(Sort::Int),
        b"Bool" => Some(Sort::Bool),
        _ => None,
    }
}
