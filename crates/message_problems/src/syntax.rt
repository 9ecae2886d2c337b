// Why a problem's file is refused by its grammar: the slip at the first token with which no file goes on.

use crate::problem::{Around, Problem, ends_term, is_block, is_constants, is_relation, is_word};
use crate::problem_sentences as say;
use crate::syntax_inside::inside_slip;
use message_lines::{
    Slip, begins_with_one, cut, is_among, is_assumption_block, is_block_word, is_foreign_block,
    is_foreign_type, is_utf_16, sign_for_symbol,
};
use pri_tokens::Terminal;

/// The slip at token k.
pub(crate) fn syntax_slip<'a>(p: &Problem<'a>, k: usize) -> Slip<'a> {
    if begins_script(p.bytes) {
        return Slip::new(say::SMTLIB);
    }
    if begins_tptp(p) {
        return Slip::new(say::TPTP);
    }
    let around = p.around(k);
    let Some(terminal) = p.terminal(k) else {
        return end_slip(p, &around);
    };
    if terminal == Terminal::Bad {
        return bad_slip(p, k, &around);
    }
    if let Some(sentence) = glued(p, k) {
        return Slip::new(sentence);
    }
    let Some(open) = around.innermost else {
        return outside_slip(p, k, &around);
    };
    if is_block(Some(terminal)) {
        return Slip::named(say::OPEN_BRACE, p.text(open)).with_line(p.line(open));
    }
    if around.block == Some(Terminal::Problem) {
        return inside_slip(p, k, &around);
    }
    Slip::new(if around.block == Some(Terminal::Interpolant) {
        say::INTERPOLANT_SETS
    } else {
        declaration_sentence(p, k, &around)
    })
}

/// Whether the first line that is neither blank nor a comment of SMT-LIB begins with one of its commands.
fn begins_script(bytes: &[u8]) -> bool {
    let mut rest = bytes;
    for _ in 0..bytes.len() {
        let (line, behind) = cut(rest, b'\n');
        let line = line.trim_ascii_start();
        if !line.is_empty() && !line.starts_with(b";") {
            let inside = line.strip_prefix(b"(").unwrap_or(b"");
            return begins_with_one(
                inside.trim_ascii_start(),
                &[
                    "set-",
                    "declare-",
                    "define-",
                    "get-",
                    "check-sat",
                    "assert",
                    "push",
                    "pop",
                    "echo",
                    "exit",
                    "reset",
                ],
            );
        }
        let Some(behind) = behind else {
            return false;
        };
        rest = behind;
    }
    false
}

/// Whether the file begins as one of TPTP.
fn begins_tptp(p: &Problem) -> bool {
    is_among(p.text(0), &["fof", "tff", "cnf", "thf", "include"])
        && p.terminal(1) == Some(Terminal::OpenParenthesis)
}

fn end_slip<'a>(p: &Problem<'a>, around: &Around) -> Slip<'a> {
    if let Some(open) = around.innermost {
        return Slip::named(say::OPEN_END, p.text(open)).with_line(p.line(open));
    }
    if around.block.is_some() && around.problems > 0 {
        return Slip::new(say::BLOCK_BRACE);
    }
    Slip::new(say::NO_PROBLEM)
}

/// Signs of other languages that are two tokens here, with nothing between them: the refused one is the second, or after a
/// relation the first.
fn glued(p: &Problem, k: usize) -> Option<&'static str> {
    let first = k.checked_sub(1)?;
    if p.touches_next(first) {
        return glued_pair(p, first);
    }
    if is_relation(p.terminal(k)) && ends_term(p.terminal(first)) && p.touches_next(k) {
        return glued_pair(p, k);
    }
    None
}

/// What is written for the two tokens from token k on.
fn glued_pair(p: &Problem, k: usize) -> Option<&'static str> {
    let next = k.checked_add(1)?;
    let third = p.terminal(next.checked_add(1)?);
    match (p.terminal(k)?, p.terminal(next)?) {
        (Terminal::Equal, Terminal::Equal) if third == Some(Terminal::Greater) => {
            Some(say::ARROW_EQUALS)
        }
        (Terminal::Equal, Terminal::Greater) => Some(say::ARROW_EQUALS),
        (Terminal::AtMost, Terminal::Greater | Terminal::Equal) => Some(say::ARROW_BOTH),
        (Terminal::Equal, Terminal::Equal) => Some(say::EQUALS_TWICE),
        (Terminal::And, Terminal::And) => Some(say::AND_TWICE),
        (Terminal::Or, Terminal::Or) => Some(say::OR_TWICE),
        (Terminal::Equal, Terminal::Less) => Some(say::EQUALS_LESS),
        (Terminal::Less, Terminal::Greater) | (Terminal::Unequal, Terminal::Equal) => {
            Some(say::ANGLE_BRACKETS)
        }
        (Terminal::Minus, Terminal::Implies) => Some(say::LONG_ARROW),
        (Terminal::Star, Terminal::Star) => Some(say::POWER),
        _ => None,
    }
}

/// The slip at a byte that begins no token.
fn bad_slip<'a>(p: &Problem<'a>, k: usize, around: &Around) -> Slip<'a> {
    let text = p.text(k);
    let next = p.text(k.saturating_add(1));
    if text.starts_with(b"/*") {
        return Slip::new(say::OPEN_COMMENT);
    }
    if text == b"/".as_slice() && next == b"\\".as_slice() {
        return Slip::named(say::OTHER_SIGN, b"&");
    }
    if text == b"\\".as_slice() && next == b"/".as_slice() {
        return Slip::named(say::OTHER_SIGN, b"|");
    }
    if is_foreign_block(text) {
        return Slip::new(say::VARIABLES);
    }
    if is_assumption_block(text) {
        return Slip::new(say::ASSUMPTIONS);
    }
    if text.starts_with(b"\\") {
        return Slip::new(say::UNKNOWN_COMMAND);
    }
    let rest = p.bytes.get(p.offset(k)..).unwrap_or(&[]);
    if rest.starts_with("\u{feff}".as_bytes()) {
        return Slip::new(say::BYTE_ORDER_MARK);
    }
    if is_utf_16(rest) {
        return Slip::new(say::UTF_16);
    }
    if rest.starts_with("∈".as_bytes()) {
        return Slip::new(say::MEMBER);
    }
    if let Some(sign) = sign_for_symbol(rest) {
        return Slip::named(say::OTHER_SIGN, sign.as_bytes());
    }
    if is_in_bounds(p, k, around) {
        return Slip::new(say::TYPE_BOUNDS);
    }
    if text == b":".as_slice() && next == b"=".as_slice() && !p.is_in_binder(k) {
        return Slip::named(say::OTHER_SIGN, b"=");
    }
    Slip::new(bad_sentence(p, k))
}

/// Whether token k stands between the brackets of a type.
fn is_in_bounds(p: &Problem, k: usize, around: &Around) -> bool {
    let Some(open) = around.innermost else {
        return false;
    };
    p.terminal(open) == Some(Terminal::OpenBracket)
        && (around.block != Some(Terminal::Problem) || p.begins_binder(k))
}

/// The sentence at a byte of ASCII that begins no token.
fn bad_sentence(p: &Problem, k: usize) -> &'static str {
    let follows_number = p.before(k, 1) == Some(Terminal::Number);
    match p.text(k) {
        b"." | b":" if p.is_in_binder(k) => say::BINDER_END,
        b"." if follows_number && !begins_fraction(p, k) => say::FULL_STOP,
        b"." if follows_number => say::DECIMAL,
        b"%" => say::PERCENT,
        b"/" => say::DIVISION,
        b"^" if follows_number => say::POWER_OF_NUMBERS,
        b"^" => say::POWER,
        b"?" => say::IF_WORD,
        b"~" => say::NOT_SIGN,
        b"'" => say::PRIME,
        b"\"" => say::STRING,
        b"#" => say::HASH_COMMENT,
        _ if is_letter_of_name(p, k) => say::PRIME,
        _ => say::OTHER_BYTE,
    }
}

/// Whether digits or another dot stand right after token k.
fn begins_fraction(p: &Problem, k: usize) -> bool {
    let next = p.text(k.saturating_add(1));
    p.touches_next(k) && (next == b".".as_slice() || next.first().is_some_and(u8::is_ascii_digit))
}

/// Whether the byte of token k begins a letter outside of ASCII beside letters of a name.
fn is_letter_of_name(p: &Problem, k: usize) -> bool {
    let is_outside = match p.text(k).first() {
        Some(byte) => !byte.is_ascii(),
        None => false,
    };
    let follows_name = match k.checked_sub(1) {
        Some(i) => p.terminal(i) == Some(Terminal::Identifier) && p.touches_next(i),
        None => false,
    };
    let next = k.saturating_add(1);
    let leads_name = p.terminal(k.saturating_add(2)) == Some(Terminal::Identifier)
        && p.touches_next(k)
        && p.touches_next(next);
    is_outside && (follows_name || leads_name)
}

/// The slip at a token outside of all blocks.
fn outside_slip<'a>(p: &Problem<'a>, k: usize, around: &Around) -> Slip<'a> {
    let terminal = p.terminal(k);
    if terminal == Some(Terminal::Problem) && around.problems > 0 {
        return Slip::new(say::SECOND_PROBLEM);
    }
    let begins_braces = p.terminal(k.saturating_add(1)) == Some(Terminal::OpenBrace);
    if is_block_word(p.text(k)) || begins_braces && terminal == Some(Terminal::Identifier) {
        return Slip::new(say::BLOCK_BACKSLASH);
    }
    if is_block(p.before(k, 1)) {
        return Slip::new(say::BLOCK_BRACE);
    }
    Slip::new(say::FIRST)
}

/// The sentence at a token of a block of declarations.
fn declaration_sentence(p: &Problem, k: usize, around: &Around) -> &'static str {
    let bracket = match around.innermost {
        Some(open) => p.terminal(open),
        None => None,
    };
    let terminal = p.terminal(k);
    if bracket == Some(Terminal::OpenBracket) {
        return say::TYPE_BOUNDS;
    }
    if let Some(sentence) = type_sentence(terminal, p.before(k, 1), is_constants(around.block)) {
        return sentence;
    }
    if terminal == Some(Terminal::Equal) && p.before(k, 1) == Some(Terminal::Identifier) {
        return say::DECLARATION_VALUE;
    }
    let begins = matches!(
        p.before(k, 1),
        Some(Terminal::OpenBrace | Terminal::Semicolon)
    );
    if begins && is_foreign_type(p.text(k)) {
        return say::UNKNOWN_TYPE;
    }
    if bracket == Some(Terminal::OpenParenthesis) {
        let is_name = terminal == Some(Terminal::Identifier);
        return if is_name {
            say::ARGUMENT_TYPE
        } else {
            say::OTHER
        };
    }
    name_sentence(p, k, around, begins)
}

/// The sentence at a token of a type, of constants or of a function; none where it is wrong for another reason.
fn type_sentence(
    terminal: Option<Terminal>,
    before: Option<Terminal>,
    is_constant: bool,
) -> Option<&'static str> {
    let is_type = matches!(terminal, Some(Terminal::Int | Terminal::Nat));
    let is_behind_type = matches!(before, Some(Terminal::Int | Terminal::Nat));
    if terminal == Some(Terminal::Nat) && !is_constant {
        return Some(say::FUNCTION_INT);
    }
    if terminal == Some(Terminal::OpenBracket) && is_behind_type {
        return Some(if is_constant {
            say::TYPE_BOUNDS
        } else {
            say::FUNCTION_INT
        });
    }
    if is_type && (is_behind_type || before == Some(Terminal::CloseBracket)) {
        return Some(say::TYPE_WORD);
    }
    None
}

/// The sentence at a token of a declaration outside of brackets.
fn name_sentence(p: &Problem, k: usize, around: &Around, begins: bool) -> &'static str {
    let terminal = p.terminal(k);
    let is_predicates = around.block == Some(Terminal::Predicates);
    if (terminal == Some(Terminal::CloseBrace) || is_word(terminal)) && ends_term(p.before(k, 1)) {
        return say::MISSING_SEMICOLON;
    }
    if is_word(terminal) && p.before(k, 1) == Some(Terminal::Comma) {
        return if is_predicates {
            say::PREDICATE_TYPE
        } else {
            say::TYPE_AGAIN
        };
    }
    if begins && is_word(terminal) && is_predicates {
        return say::PREDICATE_TYPE;
    }
    if begins && terminal == Some(Terminal::Identifier) {
        return match around.block {
            Some(Terminal::Functions) => say::FUNCTION_TYPE,
            _ => say::DECLARATION_TYPE,
        };
    }
    say::OTHER
}
