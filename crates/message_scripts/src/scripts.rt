// Why a script is refused: the slip at the place of the refusal, by the tokens and lists round it.

use crate::script_commands::command_slip;
use crate::script_sentences as say;
use crate::script_sorts::{Sort, find_sort};
use message_lines::{
    Hole, Phrase, Script, Slip, infix, is_among, is_infix, is_near, is_operator, is_utf_16,
    operator_for, paired,
};
use smt_tokens::Terminal;

/// The slip at token k, by the name of the refusal.
pub(crate) fn script_slip<'a>(script: Script<'a>, name: &[u8], k: usize) -> Slip<'a> {
    match name {
        b"Syntax" => syntax_slip(script, k),
        b"Profile" if script.opens(k) && script.outermost(k).is_none() => command_slip(script, k),
        b"Profile" => profile_slip(script, k),
        b"Undeclared" => undeclared_slip(script, k),
        b"Arity" => arity_slip(script, k),
        b"Redeclared" => redeclared_slip(script, k),
        b"Kind" => match infix(script, k) {
            Some(phrase) => Slip::new(say::INFIX).with_name(Hole::Phrase(phrase)),
            None => Slip::new(match find_sort(script, k) {
                Some(Sort::Int) => say::KIND_INT,
                Some(Sort::Bool) => say::KIND_BOOL,
                None => say::KIND,
            }),
        },
        b"NonLinear" => Slip::new(say::NONLINEAR),
        b"Literal" => Slip::new(say::NUMERAL),
        b"Deep" if script.outermost(k).is_none() => Slip::new(say::LEVELS),
        b"Deep" => Slip::new(say::DEEP),
        b"Many" => Slip::new(say::MANY),
        _ => Slip::new(say::LARGE),
    }
}

fn syntax_slip<'a>(script: Script<'a>, k: usize) -> Slip<'a> {
    let Some(terminal) = script.terminal(k) else {
        return end_slip(script);
    };
    let text = script.text(k);
    if terminal == Terminal::Close {
        return Slip::new(say::CLOSE);
    }
    if is_read_command(text) {
        return Slip::new(say::BARE);
    }
    if text.starts_with(b":") {
        return Slip::new(say::COLON);
    }
    if text.starts_with(b"\"") || text.starts_with(b"|") {
        return Slip::new(say::BYTE);
    }
    if text.starts_with("\u{feff}".as_bytes()) {
        return Slip::new(say::BYTE_ORDER_MARK);
    }
    if is_utf_16(text) {
        return Slip::new(say::UTF_16);
    }
    if text.starts_with(b"//") || text.starts_with(b"/*") || text.starts_with(b"#") {
        return Slip::new(say::COMMENT);
    }
    Slip::new(say::OUTSIDE)
}

/// The slip where the script ends too early.
fn end_slip<'a>(script: Script<'a>) -> Slip<'a> {
    let last = script.len().saturating_sub(1);
    if script.terminal(last) == Some(Terminal::Unfinished) {
        let sentence = if script.text(last).starts_with(b"|") {
            say::END_BAR
        } else {
            say::END_STRING
        };
        return Slip::new(sentence).with_line(script.line(last));
    }
    match script.outermost(script.len()) {
        Some(open) => Slip::new(say::END_LIST)
            .with_name(Hole::Token(script.text_behind(open, 1)))
            .with_line(script.line(open)),
        None => Slip::new(say::END),
    }
}

/// The commands that are read.
pub(crate) const READ: [&str; 28] = [
    "set-logic",
    "set-info",
    "set-option",
    "declare-const",
    "declare-fun",
    "define-fun",
    "define-const",
    "define-sort",
    "define-fun-rec",
    "define-funs-rec",
    "assert",
    "check-sat",
    "check-sat-assuming",
    "push",
    "pop",
    "reset",
    "reset-assertions",
    "echo",
    "get-info",
    "get-option",
    "get-model",
    "get-value",
    "get-assignment",
    "get-assertions",
    "get-unsat-core",
    "get-unsat-assumptions",
    "get-proof",
    "exit",
];

/// Whether a text is the name of a command that is read.
pub(crate) fn is_read_command(text: &[u8]) -> bool {
    is_among(text, &READ)
}

/// The slip inside of a command.
fn profile_slip<'a>(script: Script<'a>, k: usize) -> Slip<'a> {
    if let Some(phrase) = infix(script, k) {
        return Slip::new(say::INFIX).with_name(Hole::Phrase(phrase));
    }
    let text = script.text(k);
    let is_list = script.opens(k);
    let first = if is_list {
        script.text_behind(k, 1)
    } else {
        b""
    };
    let second = script.text_behind(k, 2);
    let indexed = if first == b"(".as_slice() && second == b"_".as_slice() {
        script.text_behind(k, 3)
    } else if first == b"_".as_slice() {
        second
    } else {
        b""
    };
    if is_among(text, &["mod", "div"]) {
        return Slip::new(say::DIVISION);
    }
    if indexed == b"divisible".as_slice() {
        return Slip::new(say::DIVISIBLE);
    }
    if let Some(sort) = sort_for(text) {
        return Slip::new(say::SORT_WORD).with_other(Hole::Text(sort.as_bytes()));
    }
    Slip::new(profile_sentence(script.terminal(k), text, first))
}

fn profile_sentence(terminal: Option<Terminal>, text: &[u8], first: &[u8]) -> &'static str {
    if is_among(first, &["Array", "_"]) {
        return say::SORT;
    }
    if is_among(text, &["Real", "String", "RegLan", "RoundingMode", "Bool"]) {
        return say::SORT;
    }
    match terminal {
        Some(Terminal::Decimal | Terminal::Hash | Terminal::StringLiteral | Terminal::Keyword) =>
            say::LITERAL,
        Some(Terminal::Open) => match first {
            b"!" => say::NOT_SIGN,
            b"let" => say::FORM_LET,
            b"forall" => say::FORM_FORALL,
            b"exists" => say::FORM_EXISTS,
            b"(" => say::DOUBLE,
            _ => say::LIST,
        },
        _ => say::SORT,
    }
}

/// The sort that is written for a type of other languages.
fn sort_for(text: &[u8]) -> Option<&'static str> {
    paired(
        text,
        &[
            ("int", "Int"),
            ("INT", "Int"),
            ("integer", "Int"),
            ("Integer", "Int"),
            ("nat", "Int"),
            ("Nat", "Int"),
            ("natural", "Int"),
            ("bool", "Bool"),
            ("BOOL", "Bool"),
            ("boolean", "Bool"),
            ("Boolean", "Bool"),
        ],
    )
}

/// The list around token k with its operator in front, where that stands in the second place.
fn infix_around<'a>(script: Script<'a>, k: usize) -> Option<Slip<'a>> {
    let open = k.checked_sub(1)?;
    let phrase = infix(script, open)?;
    Some(Slip::new(say::INFIX).with_name(Hole::Phrase(phrase)))
}

fn undeclared_slip<'a>(script: Script<'a>, k: usize) -> Slip<'a> {
    if let Some(slip) = infix_around(script, k) {
        return slip;
    }
    let name = script.text(k);
    if let Some(operator) = operator_for(name) {
        return Slip::named(say::OPERATOR, operator.as_bytes());
    }
    if let Some(behind) = name.strip_prefix(b"-") {
        let is_number = match behind.first() {
            Some(byte) => byte.is_ascii_digit(),
            None => false,
        };
        if is_number || !behind.is_empty() && script.declaration(behind).is_some() {
            return Slip::named(say::NEGATIVE, behind);
        }
    }
    match name {
        b"select" | b"store" => return Slip::new(say::ARRAY),
        b"min" => return Slip::named(say::CHOICE, b"<="),
        b"max" => return Slip::named(say::CHOICE, b">="),
        _ => {}
    }
    if joins_members(name) {
        return Slip::new(say::NO_BLANK);
    }
    if let Some(found) = script.declaration(name)
        && found < k
    {
        return Slip::new(say::GONE).with_line(script.line(found.saturating_add(2)));
    }
    let Some(found) = script.declaration_in_any_case(name) else {
        return near_slip(script, name);
    };
    let declared = script.text_behind(found, 2);
    let sentence = if declared == name {
        say::LATER
    } else {
        say::CASE
    };
    Slip::named(sentence, declared).with_line(script.line(found.saturating_add(2)))
}

/// The slip at a name that is declared nowhere, also not in another case.
fn near_slip<'a>(script: Script<'a>, name: &[u8]) -> Slip<'a> {
    for k in 0..script.len() {
        if script.declares(k) && is_near(script.text_behind(k, 2), name) {
            return Slip::named(say::NEAR, script.text_behind(k, 2)).with_line(script.line(k));
        }
    }
    Slip::new(say::UNDECLARED)
}

/// Whether a symbol looks as members of a list with an operator between them: a digit before `*`, or `*` before a letter, or
/// `+` between letters and digits.
fn joins_members(name: &[u8]) -> bool {
    for (i, byte) in name.iter().enumerate() {
        let before = match i.checked_sub(1) {
            Some(j) => name.get(j).copied().unwrap_or(0),
            None => 0,
        };
        let behind = name.get(i + 1).copied().unwrap_or(0);
        let joins = match *byte {
            b'*' => before.is_ascii_digit() || behind.is_ascii_alphabetic(),
            b'+' => before.is_ascii_alphanumeric() && behind.is_ascii_alphanumeric(),
            _ => false,
        };
        if joins {
            return true;
        }
    }
    false
}

fn arity_slip<'a>(script: Script<'a>, k: usize) -> Slip<'a> {
    if let Some(slip) = infix_around(script, k) {
        return slip;
    }
    let name = script.text(k);
    let follows_open = script.follows_open(k);
    let next = k.saturating_add(1);
    let touches = script.offset(k).saturating_add(name.len()) == script.offset(next);
    if script.opens(next) && touches && !follows_open {
        return Slip::new(say::OUTSIDE_NAME).with_name(Hole::Phrase(Phrase::Call(
            script, name, next,
        )));
    }
    if is_infix(name) && !follows_open {
        return Slip::new(say::CHAIN);
    }
    let Some(found) = script.declaration_before(name, k) else {
        return Slip::new(say::ARITY);
    };
    let used = match k.checked_sub(1) {
        Some(open) if follows_open => script.count(open).saturating_sub(1),
        _ => 0,
    };
    let declared = declared_arguments(script, found);
    Slip::counted(say::COUNT, declared, used, script.line(found))
}

/// How many arguments the declaration that token k opens gives its symbol.
pub(crate) fn declared_arguments(script: Script, k: usize) -> usize {
    match script.member(k, 2) {
        Some(span) if script.opens(span.from) => script.count(span.from),
        _ => 0,
    }
}

fn redeclared_slip<'a>(script: Script<'a>, k: usize) -> Slip<'a> {
    match script.declaration_before(script.text(k), k) {
        Some(found) => Slip::new(say::AGAIN).with_line(script.line(found)),
        None => Slip::new(say::REDECLARED),
    }
}

/// Whether the list that token k opens has an operator at this place.
pub(crate) fn has_operator(script: Script, k: usize, number: usize) -> bool {
    is_operator(script.member_text(k, number))
}
