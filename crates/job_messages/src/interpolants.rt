// Which lines of the `\interpolant` blocks have no formula, and why.

use crate::run_sentences as say;
use linear_term::Memory;
use message_lines::{Hole, Messages, Page, Severity, Slip, Subject, cut};
use message_problems::Problem;
use pri_tokens::Terminal;
use std::alloc::Global;

/// Puts a message for each line of an answer that is no interpolant, at the sign between the two sets that it belongs to.
pub(crate) fn put_interpolants<'x>(
    alloc: Global,
    messages: &mut Messages,
    name: &'x str,
    text: &'x [u8],
    answer: &[u8],
    budget: Hole,
) -> Result<(), Memory> {
    if count_lines(answer) == 0 {
        return Ok(());
    }
    let lexemes = pri_tokens::lexemes(alloc, text)?;
    let problem = Problem {
        bytes: text,
        lexemes: lexemes.as_slice(),
    };
    put_lines(alloc, messages, &problem, name, answer, budget)
}

/// Puts what is said of each interpolant of an answer that was not found.
fn put_lines<'x>(
    alloc: Global,
    messages: &mut Messages,
    problem: &Problem<'x>,
    name: &'x str,
    answer: &[u8],
    budget: Hole,
) -> Result<(), Memory> {
    let mut label = Label {
        name,
        number: 0,
        total: count_lines(answer),
    };
    let mut next = 0;
    let mut rest = answer;
    for _ in 0..answer.len() {
        let (line, behind) = cut(rest, b'\n');
        if line.starts_with(b"interpolant") {
            label.number = label.number.saturating_add(1);
            let at = cut_from(problem, next, label.number > 1);
            next = at.saturating_add(1);
            if let Some(cause) = line.strip_prefix(b"interpolant unknown: ") {
                let name = label.text(alloc)?;
                let subject = subject_at(problem, at, label.name, name.bytes());
                messages.put(
                    &subject,
                    &Slip::new(missing_sentence(cause)).with_name(budget),
                )?;
            }
        }
        let Some(behind) = behind else {
            break;
        };
        rest = behind;
    }
    Ok(())
}

/// The name of a file, and which interpolant of how many a message is about.
#[derive(Clone, Copy)]
struct Label<'a> {
    name: &'a str,
    number: u64,
    total: u64,
}

impl<'a> Label<'a> {
    /// What the message is about.
    fn text(&self, alloc: Global) -> Result<Page, Memory> {
        let mut text = Page::new(alloc);
        text.put(b"interpolant ")?;
        text.put_number(self.number)?;
        text.put(b" of ")?;
        text.put_number(self.total)?;
        Ok(text)
    }
}

/// How many lines of an answer belong to interpolants.
fn count_lines(answer: &[u8]) -> u64 {
    let mut count: u64 = 0;
    let mut rest = answer;
    for _ in 0..answer.len() {
        let (line, behind) = cut(rest, b'\n');
        if line.starts_with(b"interpolant") {
            count = count.saturating_add(1);
        }
        let Some(behind) = behind else {
            break;
        };
        rest = behind;
    }
    count
}

/// The first `;` from token k on that stands in an `\interpolant` block; the end where there is none.
fn cut_from(problem: &Problem, k: usize, is_inside: bool) -> usize {
    let mut is_inside = is_inside;
    for i in k..problem.len() {
        match problem.terminal(i) {
            Some(Terminal::Interpolant) => is_inside = true,
            Some(Terminal::CloseBrace) => is_inside = false,
            Some(Terminal::Semicolon) if is_inside => return i,
            _ => {}
        }
    }
    problem.len()
}

/// What the message about the interpolant at a token is about; after the last token there is no place.
fn subject_at<'a, 'n>(
    problem: &Problem<'a>,
    at: usize,
    file: &'a str,
    name: &'n [u8],
) -> Subject<'a, 'n> {
    Subject {
        file,
        severity: Severity::Note,
        name,
        spot: if at < problem.len() {
            Some((problem.bytes, problem.offset(at)))
        } else {
            None
        },
    }
}

/// Why an interpolant was not found.
fn missing_sentence(cause: &[u8]) -> &'static str {
    match cause {
        b"steps" => say::INTERPOLANT_STEPS,
        b"overflow" => say::INTERPOLANT_OVERFLOW,
        b"symbols" => say::INTERPOLANT_SYMBOLS,
        b"branch" => say::INTERPOLANT_BRANCH,
        b"large" => say::INTERPOLANT_LARGE,
        _ => say::INTERPOLANT_PLAIN,
    }
}
