// More errors of a script than the first: commands that are not read, names that are declared twice, and in assertions and definitions
// names that nothing declares before them or that have another number of arguments. What a command binds somewhere is not judged in it.

use crate::scripts::{declared_arguments, is_read_command, script_slip};
use linear_term::Memory;
use message_lines::{
    Hole, MOST, Messages, Script, Span, Spot, infix, is_among, operator_for, put_refused,
};
use smt_tokens::Terminal;

/// How many tokens a script has at most for more than one error.
const TOKENS: usize = 10_000;

/// What a term may name without a declaration.
const OPERATORS: [&str; 35] = [
    "true",
    "false",
    "not",
    "and",
    "or",
    "xor",
    "=>",
    "=",
    "distinct",
    "<",
    "<=",
    ">",
    ">=",
    "+",
    "-",
    "*",
    "/",
    "ite",
    "abs",
    "min",
    "max",
    "div",
    "mod",
    "divisible",
    "let",
    "forall",
    "exists",
    "!",
    "_",
    "as",
    "match",
    "par",
    "select",
    "store",
    "const",
];

/// A script whose first error is told: the token of that, and the list in which it stands.
#[derive(Clone, Copy)]
struct Refused<'a> {
    script: Script<'a>,
    token: usize,
    command: usize,
}

/// Puts the errors of a script after its first one, which has this name and stands at this token.
pub(crate) fn put_further_commands<'x>(
    messages: &mut Messages,
    file: &'x str,
    script: Script<'x>,
    name: &[u8],
    token: usize,
) -> Result<(), Memory> {
    let is_inside = matches!(
        name,
        b"Profile" | b"Undeclared" | b"Redeclared" | b"Arity" | b"Kind" | b"NonLinear"
    );
    if !is_inside || script.len() > TOKENS {
        return Ok(());
    }
    let refused = Refused {
        script,
        token,
        command: script.outermost(token).unwrap_or(token),
    };
    let mut depth: usize = 0;
    for k in 0..script.len() {
        if script.opens(k) {
            if depth == 0 && k >= refused.command {
                if script.text_behind(k, 1) == b"exit".as_slice() {
                    return Ok(());
                }
                put_command(messages, file, &refused, k)?;
            }
            depth = depth.saturating_add(1);
        } else if script.closes(k) {
            depth = depth.saturating_sub(1);
        }
    }
    Ok(())
}

/// Puts the errors of the command that token k opens.
fn put_command<'x>(
    messages: &mut Messages,
    file: &'x str,
    refused: &Refused<'x>,
    k: usize,
) -> Result<(), Memory> {
    let script = refused.script;
    let name = script.text_behind(k, 1);
    if !is_read_command(name) {
        return put_error(messages, file, refused, b"Profile", k);
    }
    if script.declares(k) {
        put_again(messages, file, refused, k)?;
    }
    let body = match name {
        b"assert" => script.member(k, 1),
        b"define-fun" | b"define-fun-rec" => script.member(k, 4),
        b"define-const" => script.member(k, 3),
        _ => None,
    };
    match body {
        Some(body) => put_names(messages, file, refused, k, body),
        None => Ok(()),
    }
}

/// Puts that the name which the list at token k declares is declared before, where that is certain.
fn put_again<'x>(
    messages: &mut Messages,
    file: &'x str,
    refused: &Refused<'x>,
    k: usize,
) -> Result<(), Memory> {
    let name = k.saturating_add(2);
    match refused
        .script
        .declaration_before(refused.script.text(name), k)
    {
        Some(found) if found != refused.command => {
            put_error(messages, file, refused, b"Redeclared", name)
        }
        _ => Ok(()),
    }
}

/// Puts the errors of the names in the body of the command that token k opens.
fn put_names<'x>(
    messages: &mut Messages,
    file: &'x str,
    refused: &Refused<'x>,
    k: usize,
    body: Span,
) -> Result<(), Memory> {
    let script = refused.script;
    for i in body.from..body.to {
        if script.terminal(i) == Some(Terminal::Symbol)
            && !is_known(script, k, body.to, i)
            && let Some(name) = name_fault(refused, i)
        {
            put_error(messages, file, refused, name, i)?;
        }
    }
    Ok(())
}

/// Whether the symbol at token i is an operator or a sort, goes with an attribute, or is bound somewhere in the command from token k on.
fn is_known(script: Script, k: usize, to: usize, i: usize) -> bool {
    let text = script.text(i);
    let follows_keyword = match i.checked_sub(1) {
        Some(before) => script.terminal(before) == Some(Terminal::Keyword),
        None => false,
    };
    follows_keyword
        || is_among(text, &OPERATORS)
        || is_among(text, &["Int", "Bool"])
        || is_bound(script, k, to, text)
}

/// Whether the command from token k on binds a name: before a sort, or, with a `let` in it, at the begin of a list.
fn is_bound(script: Script, k: usize, to: usize, name: &[u8]) -> bool {
    let mut has_let = false;
    for i in k..to {
        has_let = has_let || script.text(i) == b"let".as_slice();
        if script.text(i) == name && script.follows_open(i) {
            let is_sorted = is_among(script.text_behind(i, 1), &["Int", "Bool"]);
            if is_sorted || has_let {
                return true;
            }
        }
    }
    false
}

/// What is wrong with the name at token i, which its command does not bind.
fn name_fault(refused: &Refused, i: usize) -> Option<&'static [u8]> {
    let script = refused.script;
    let name = script.text(i);
    if operator_for(name).is_some() || begins_infix(script, i) {
        return None;
    }
    let Some(found) = script.declaration(name) else {
        return if is_first_use(script, i) {
            Some(b"Undeclared")
        } else {
            None
        };
    };
    if found > i {
        return Some(b"Undeclared");
    }
    match script.declaration_before(name, i) {
        Some(found) if found != refused.command && has_other_arguments(script, found, i) => {
            Some(b"Arity")
        }
        _ => None,
    }
}

/// Whether the symbol at token i begins a list with its operator in the second place.
fn begins_infix(script: Script, i: usize) -> bool {
    match i.checked_sub(1) {
        Some(open) => infix(script, open).is_some(),
        None => false,
    }
}

/// Whether the symbol at token i begins a list with another number of arguments than the list at the other token declares.
fn has_other_arguments(script: Script, found: usize, i: usize) -> bool {
    match i.checked_sub(1) {
        Some(open) if script.opens(open) => {
            script.count(open).saturating_sub(1) != declared_arguments(script, found)
        }
        _ => false,
    }
}

/// Whether token i is the first one with its text in the terms of the script.
fn is_first_use(script: Script, i: usize) -> bool {
    let name = script.text(i);
    for k in 0..i {
        if script.text(k) == name {
            return false;
        }
    }
    true
}

/// Puts an error at token k, but for the first one of the script, as long as there are few.
fn put_error<'x>(
    messages: &mut Messages,
    file: &'x str,
    refused: &Refused<'x>,
    name: &'static [u8],
    k: usize,
) -> Result<(), Memory> {
    let script = refused.script;
    if k <= refused.token || messages.len() >= MOST {
        return Ok(());
    }
    let spot = Spot {
        name: file,
        text: script.bytes,
        at: script.offset(k),
    };
    let slip = script_slip(script, name, k).at(Hole::Token(script.text(k)), b"");
    put_refused(messages, &spot, name, &slip)
}
