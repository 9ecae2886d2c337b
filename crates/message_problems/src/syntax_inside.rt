// Why the grammar refuses a token inside the formula of `\problem`.

use crate::problem::{
    Around, Problem, ends_term, is_command, is_operator, is_quantifier, is_relation, is_word,
};
use crate::problem_sentences as say;
use message_lines::{
    Hole, Slip, is_among, is_foreign_type, is_quantifier_word, is_remainder, sign_for_word,
};
use pri_tokens::Terminal;

/// The slip at token k.
pub(crate) fn inside_slip<'a>(p: &Problem<'a>, k: usize, around: &Around) -> Slip<'a> {
    if let Some(sentence) = binder_sentence(p, k, around) {
        return Slip::new(sentence);
    }
    let before = p.before(k, 1);
    if before == Some(Terminal::Part) {
        return Slip::new(say::PART_BRACKET);
    }
    let is_choice = is_among(p.text(k), &["then", "else"]);
    if is_choice || p.text_before(k, 1) == b"if".as_slice() {
        return Slip::new(say::IF_WORD);
    }
    if is_command(before) {
        return Slip::new(say::IF_PAREN);
    }
    if ends_term(before) {
        return ended_slip(p, k, around);
    }
    if let Some(sentence) = begin_sentence(p, k) {
        return Slip::new(sentence);
    }
    if matches!(
        p.terminal(k),
        Some(
            Terminal::Semicolon
                | Terminal::Comma
                | Terminal::CloseParenthesis
                | Terminal::CloseBrace
                | Terminal::CloseBracket
        )
    ) {
        return Slip::new(say::OPERAND_MISSING);
    }
    if is_operator(before) && is_operator(p.terminal(k)) {
        return Slip::new(say::OPERAND_BEFORE);
    }
    Slip::new(say::OTHER)
}

/// The sentence at a bracket where a term or a formula has to begin: another one than `(`, or a bar.
fn begin_sentence(p: &Problem, k: usize) -> Option<&'static str> {
    let is_behind_bar = p.before(k, 1) == Some(Terminal::Or);
    match p.terminal(k)? {
        Terminal::OpenBracket | Terminal::OpenBrace => Some(say::GROUP),
        Terminal::Or if !is_behind_bar => Some(say::ABSOLUTE),
        _ => None,
    }
}

/// The sentence at a token where the types and the names of a quantifier stand.
fn binder_sentence(p: &Problem, k: usize, around: &Around) -> Option<&'static str> {
    let terminal = p.terminal(k);
    let before = p.before(k, 1);
    let is_name = terminal == Some(Terminal::Identifier);
    let bracket = match around.innermost {
        Some(open) => p.terminal(open),
        None => None,
    };
    if bracket == Some(Terminal::OpenBracket) && begins_binder_before(p, k) {
        return Some(say::TYPE_BOUNDS);
    }
    if terminal == Some(Terminal::OpenBracket) && before == Some(Terminal::Nat) {
        return Some(say::TYPE_BOUNDS);
    }
    let is_bare = is_among(p.text_before(k, 1), &["forall", "exists"]);
    if terminal == Some(Terminal::Nat)
        && !is_quantifier(before)
        && before != Some(Terminal::Comma)
        && !is_bare
    {
        return Some(say::TYPE_WORD);
    }
    if is_bare {
        return Some(say::QUANTIFIER_WORD);
    }
    if before == Some(Terminal::OpenParenthesis) && is_quantifier(p.before(k, 2)) && is_name {
        return Some(say::BINDER_TYPE);
    }
    if is_quantifier(before) {
        return Some(match (is_name, is_foreign_type(p.text(k))) {
            (true, true) => say::UNKNOWN_TYPE,
            (true, false) => say::BINDER_TYPE,
            (false, _) => say::OTHER,
        });
    }
    bound_sentence(p, k)
}

/// Whether a binder begins at the token before token k.
fn begins_binder_before(p: &Problem, k: usize) -> bool {
    match k.checked_sub(1) {
        Some(i) => p.begins_binder(i),
        None => false,
    }
}

/// The sentence at token k after a bound name or a comma between bound names.
fn bound_sentence(p: &Problem, k: usize) -> Option<&'static str> {
    let before = p.before(k, 1);
    if is_word(p.terminal(k)) && before == Some(Terminal::Comma) && begins_binder_before(p, k) {
        return Some(say::TYPE_AGAIN);
    }
    if before == Some(Terminal::Identifier) && p.is_in_binder(k) {
        return Some(say::BINDER_END);
    }
    None
}

/// The slip at token k where a term or a formula may end before it.
fn ended_slip<'a>(p: &Problem<'a>, k: usize, around: &Around) -> Slip<'a> {
    let terminal = p.terminal(k);
    if is_relation(terminal) {
        return Slip::new(say::CHAIN);
    }
    if terminal == Some(Terminal::OpenBracket) {
        return Slip::new(say::INDEX);
    }
    for word in [p.text(k), p.text_before(k, 1)] {
        if is_remainder(word) {
            return Slip::named(say::REMAINDER_WORD, word);
        }
    }
    for word in [p.text(k), p.text_before(k, 1)] {
        if let Some(sign) = sign_for_word(word) {
            return Slip::named(say::WORD_OPERATOR, word).with_other(Hole::Text(sign.as_bytes()));
        }
    }
    if is_quantifier_word(p.text_before(k, 1)) {
        return Slip::new(say::QUANTIFIER_FORM);
    }
    if is_among(p.text(k), &["in"]) {
        return Slip::new(say::MEMBER);
    }
    if terminal == Some(Terminal::Comma) {
        return Slip::new(say::COMMA);
    }
    if terminal == Some(Terminal::Semicolon) && around.depth == 1 {
        return Slip::new(say::SEMICOLON_IN_PROBLEM);
    }
    if terminal == Some(Terminal::CloseParenthesis) {
        return Slip::new(say::UNMATCHED);
    }
    if let Some(open) = around.innermost
        && terminal == Some(Terminal::CloseBrace)
        && p.terminal(open) == Some(Terminal::OpenParenthesis)
    {
        return Slip::new(say::OPEN_PAREN).with_line(p.line(open));
    }
    Slip::new(joined_sentence(p, k))
}

/// The sentence where a numeral of another language is two tokens here.
fn numeral_sentence(p: &Problem, k: usize) -> Option<&'static str> {
    let number = k.checked_sub(1)?;
    if p.terminal(number) != Some(Terminal::Number) || !p.touches_next(number) {
        return None;
    }
    let (first, rest) = p.text(k).split_first()?;
    let digit = rest.first()?;
    let is_zero = p.text(number) == b"0".as_slice();
    match first {
        b'_' if digit.is_ascii_digit() => Some(say::DIGIT_GROUPS),
        b'x' | b'X' if is_zero && digit.is_ascii_hexdigit() => Some(say::HEXADECIMAL),
        _ => None,
    }
}

/// The sentence where something begins that cannot follow a term or a formula.
fn joined_sentence(p: &Problem, k: usize) -> &'static str {
    let terminal = p.terminal(k);
    let begins_factor = matches!(
        terminal,
        Some(Terminal::Identifier | Terminal::OpenParenthesis)
    );
    if let Some(sentence) = numeral_sentence(p, k) {
        return sentence;
    }
    if p.before(k, 1) == Some(Terminal::Number) && begins_factor {
        return say::TIMES_MISSING;
    }
    let begins = begins_factor
        || matches!(terminal, Some(Terminal::Number | Terminal::Not))
        || is_word(terminal)
        || is_command(terminal);
    if begins {
        say::END_EXPECTED
    } else {
        say::OTHER
    }
}
