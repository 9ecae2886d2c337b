// The assumptions of a problem: where its formula is `A -> B`, and the same problem with `false` in the place of B.

use base_answers::status;
use linear_term::Memory;
use message_problems::{Problem, is_quantifier};
use pri_tokens::Terminal;
use std::alloc::Global;

/// What is known of the assumptions of a problem. The number is the place of the sign `->` after them.
#[derive(Clone, Copy, Debug, PartialEq, Eq)]
pub enum Vacuity {
    /// It was not asked.
    Unasked,
    /// There are none.
    NoAssumptions,
    /// The problem itself asks whether they contradict one another.
    Intended(usize),
    /// They do not.
    Consistent(usize),
    /// They do; with existential constants, at some values of these.
    Contradiction(usize),
    /// No search found whether they do.
    Unknown(usize),
}

impl Vacuity {
    /// What is known of the assumptions where the problem with `false` in place of its conclusion ends with this status.
    pub fn by(status: u8, at: usize) -> Vacuity {
        match status {
            status::VALID => Vacuity::Contradiction(at),
            status::INVALID => Vacuity::Consistent(at),
            _ => Vacuity::Unknown(at),
        }
    }
}

/// What a problem's file assumes.
#[derive(Drop)]
pub enum Assumptions {
    /// Nothing: its formula is no implication.
    Missing,
    /// Something that its conclusion `false` contradicts; the place of the sign `->`.
    Refuted(usize),
    /// Something: the place of the last sign `->` of the formula, and the file with `false` in place of what stands after it, and
    /// without blocks `\interpolant`.
    Before { at: usize, changed: Vec<u8> },
}

/// Some tokens: from the first on, up to the second.
#[derive(Clone, Copy)]
struct Range {
    from: usize,
    to: usize,
}

/// What the file with these bytes assumes. A formula below `\forall` or in parentheses counts, where it is the whole one.
pub fn find_assumptions(alloc: Global, text: &[u8]) -> Result<Assumptions, Memory> {
    let lexemes = pri_tokens::lexemes(alloc, text)?;
    let p = Problem {
        bytes: text,
        lexemes: lexemes.as_slice(),
    };
    let Some((arrow, end)) = find_arrow(&p) else {
        return Ok(Assumptions::Missing);
    };
    let at = p.offset(arrow);
    let conclusion = Range {
        from: arrow.saturating_add(1),
        to: end,
    };
    if is_false(&p, conclusion) {
        return Ok(Assumptions::Refuted(at));
    }
    let changed = changed_text(alloc, &p, conclusion)?;
    Ok(Assumptions::Before { at, changed })
}

/// The last sign `->` of the formula, and the token after its right side.
fn find_arrow(p: &Problem) -> Option<(usize, usize)> {
    let mut range = formula(p)?;
    for _ in 0..p.len() {
        match last_arrow(p, range) {
            Top::Arrow(arrow) => return Some((arrow, range.to)),
            Top::Other => return None,
            Top::Unary => range = inside(p, range)?,
        }
    }
    None
}

/// The formula of the block `\problem`.
fn formula(p: &Problem) -> Option<Range> {
    for k in 0..p.len() {
        if p.terminal(k) == Some(Terminal::Problem) {
            let open = k.checked_add(1)?;
            return Some(Range {
                from: open.checked_add(1)?,
                to: closing(p, open)?,
            });
        }
    }
    None
}

/// The bracket that closes the one at token k.
fn closing(p: &Problem, k: usize) -> Option<usize> {
    let mut depth: usize = 0;
    for i in k..p.len() {
        if p.opens(i) {
            depth = depth.saturating_add(1);
        } else if p.closes(i) {
            depth = depth.saturating_sub(1);
            if depth == 0 {
                return Some(i);
            }
        }
    }
    None
}

/// What a formula is at its top.
#[derive(Clone, Copy)]
enum Top {
    /// An implication, with its last sign at this token.
    Arrow(usize),
    /// An equivalence, a disjunction, a conjunction, or a relation.
    Other,
    /// None of these.
    Unary,
}

/// What the formula of some tokens is at its top.
fn last_arrow(p: &Problem, range: Range) -> Top {
    let mut depth: usize = 0;
    let mut top = Top::Unary;
    for i in range.from..range.to {
        if p.opens(i) {
            depth = depth.saturating_add(1);
        } else if p.closes(i) {
            depth = depth.saturating_sub(1);
        } else if depth == 0 {
            match (p.terminal(i), top) {
                (Some(Terminal::Iff), _) => return Top::Other,
                (Some(Terminal::Implies), _) => top = Top::Arrow(i),
                (Some(Terminal::And | Terminal::Or), Top::Unary) => top = Top::Other,
                _ => {}
            }
        }
    }
    top
}

/// What stands in the parentheses that are a whole formula, or after the names of the `\forall` that it begins with.
fn inside(p: &Problem, range: Range) -> Option<Range> {
    let next = range.from.checked_add(1)?;
    match p.terminal(range.from)? {
        Terminal::OpenParenthesis => {
            let close = closing(p, range.from)?;
            if close.checked_add(1)? != range.to {
                return None;
            }
            Some(Range {
                from: next,
                to: close,
            })
        }
        Terminal::Forall if is_quantifier(p.terminal(range.from)) => {
            let binder = if p.terminal(next)? == Terminal::OpenParenthesis {
                closing(p, next)?
            } else {
                semicolon(p, next)?
            };
            Some(Range {
                from: binder.checked_add(1)?,
                to: range.to,
            })
        }
        _ => None,
    }
}

/// The first `;` from token k on.
fn semicolon(p: &Problem, k: usize) -> Option<usize> {
    for i in k..p.len() {
        if p.terminal(i) == Some(Terminal::Semicolon) {
            return Some(i);
        }
    }
    None
}

/// Whether some tokens are `false`, after the name of a part and in parentheses or not.
fn is_false(p: &Problem, range: Range) -> bool {
    let mut has_false = false;
    let mut is_name = false;
    for i in range.from..range.to {
        match p.terminal(i) {
            Some(Terminal::False) => has_false = true,
            Some(Terminal::Part) => is_name = true,
            Some(Terminal::Identifier) if is_name => is_name = false,
            Some(
                Terminal::OpenParenthesis
                | Terminal::CloseParenthesis
                | Terminal::OpenBracket
                | Terminal::CloseBracket,
            ) => {}
            _ => return false,
        }
    }
    has_false
}

/// The text of a file with `false` in place of some tokens, and blanks in place of its blocks `\interpolant`.
fn changed_text(alloc: Global, p: &Problem, range: Range) -> Result<Vec<u8>, Memory> {
    let from = p.offset(range.from);
    let to = p.end_of(range.to.saturating_sub(1));
    let mut text = Vec::new(alloc);
    let blank = blanked(alloc, p)?;
    let blank = blank.as_slice();
    text.extend_from_slice(blank.get(..from).unwrap_or(&[]))?;
    text.extend_from_slice(b"false")?;
    text.extend_from_slice(blank.get(to..).unwrap_or(&[]))?;
    Ok(text)
}

/// The bytes of a file with blanks in place of its blocks `\interpolant`.
fn blanked(alloc: Global, p: &Problem) -> Result<Vec<u8>, Memory> {
    let mut text = Vec::from_slice(alloc, p.bytes)?;
    for k in 0..p.len() {
        if p.terminal(k) == Some(Terminal::Interpolant)
            && let Some(close) = closing(p, k.saturating_add(1))
        {
            for i in p.offset(k)..p.end_of(close) {
                if let Some(byte) = text.get_mut(i) {
                    *byte = b' ';
                }
            }
        }
    }
    Ok(text)
}
