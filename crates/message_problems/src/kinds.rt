// What is said where a term stands for a formula, or a formula for a term.

use crate::declarations::find_declaration;
use crate::problem::{Problem, is_command, is_quantifier, is_relation};
use crate::problem_sentences as say;
use pri_tokens::Terminal;

/// The sentence at token k, where an expression of the wrong kind begins.
pub(crate) fn kind_sentence(p: &Problem, k: usize) -> &'static str {
    if !is_formula(p, k) {
        return say::KIND_TERM;
    }
    if is_predicate(p, k) {
        return if is_compared_with_formula(p, k) {
            say::KIND_PREDICATE_EQUAL
        } else {
            say::KIND_PREDICATE
        };
    }
    if p.terminal(k) != Some(Terminal::OpenParenthesis) {
        return say::KIND_FORMULA;
    }
    let before = p.before(k, 1);
    let next = p.terminal(behind_group(p, k));
    let is_in_sum = matches!(
        before,
        Some(Terminal::Plus | Terminal::Star | Terminal::Minus)
    );
    if !is_in_sum && (next == Some(Terminal::Equal) || before == Some(Terminal::Equal)) {
        return say::KIND_FORMULAS_EQUAL;
    }
    if is_relation(next) {
        say::KIND_CHAIN
    } else {
        say::KIND_FORMULA
    }
}

/// Whether a sign = stands between the use of a predicate at token k and `true`, `false` or another one.
fn is_compared_with_formula(p: &Problem, k: usize) -> bool {
    let next = k.saturating_add(1);
    let behind = if p.terminal(next) == Some(Terminal::OpenParenthesis) {
        behind_group(p, next)
    } else {
        next
    };
    let other = behind.saturating_add(1);
    let is_first = p.terminal(behind) == Some(Terminal::Equal)
        && (is_truth(p.terminal(other)) || is_predicate(p, other));
    is_first || p.before(k, 1) == Some(Terminal::Equal) && is_truth(p.before(k, 2))
}

fn is_truth(terminal: Option<Terminal>) -> bool {
    matches!(terminal, Some(Terminal::True | Terminal::False))
}

/// Whether token k is the name of a predicate.
fn is_predicate(p: &Problem, k: usize) -> bool {
    match find_declaration(p, p.text(k), false) {
        Some(found) => found.block == Terminal::Predicates,
        None => false,
    }
}

/// Whether a formula begins at token k, and no term, up to where it can end; a group is judged by what is in it.
fn is_formula(p: &Problem, k: usize) -> bool {
    if is_quantifier(p.terminal(k))
        || matches!(
            p.terminal(k),
            Some(Terminal::Not | Terminal::True | Terminal::False | Terminal::Part)
        )
        || is_predicate(p, k)
    {
        return true;
    }
    let level: usize = if p.terminal(k) == Some(Terminal::OpenParenthesis) {
        1
    } else {
        0
    };
    let mut depth: usize = 0;
    for i in k..p.len() {
        let terminal = p.terminal(i);
        match terminal {
            Some(Terminal::OpenParenthesis) => depth = depth.saturating_add(1),
            Some(Terminal::CloseParenthesis) if depth <= level => return false,
            Some(Terminal::CloseParenthesis) => depth = depth.saturating_sub(1),
            _ if depth != level => {}
            _ if is_relation(terminal) => return true,
            Some(
                Terminal::And | Terminal::Or | Terminal::Implies | Terminal::Iff | Terminal::Not,
            ) => {
                return level == 1;
            }
            Some(Terminal::Comma | Terminal::Semicolon | Terminal::CloseBrace) => return false,
            _ if is_command(terminal) => return false,
            _ => {}
        }
    }
    false
}

/// The first token after the group that token k opens.
fn behind_group(p: &Problem, k: usize) -> usize {
    let mut depth: usize = 0;
    for i in k..p.len() {
        match p.terminal(i) {
            Some(Terminal::OpenParenthesis) => depth = depth.saturating_add(1),
            Some(Terminal::CloseParenthesis) if depth <= 1 => return i.saturating_add(1),
            Some(Terminal::CloseParenthesis) => depth = depth.saturating_sub(1),
            _ => {}
        }
    }
    p.len()
}
