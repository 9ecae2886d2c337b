// What is said where a search ended without an answer: what ended it, what it took, and what helps.

use crate::quantifiers::put_instances;
use crate::report::Run;
use crate::run_sentences as say;
use crate::stages::put_taken;
use base_watch::Stage;
use job_counts::Counts;
use linear_term::Memory;
use message_lines::{Hole, Messages, Severity, Slip, Subject, cut, put_placeless};
use pri_tokens::{Lexeme, Terminal, lexemes, spelling};
use std::alloc::Global;

/// How many steps have to be left of a budget that a single rule passed, for a note on that.
const LEFT: u64 = 1_000_000;

/// Puts why a search has no answer, what it took, and which quantifiers it instantiated most.
pub(crate) fn put_unknown(alloc: Global, messages: &mut Messages, run: &Run) -> Result<(), Memory> {
    if run.is_script {
        return put_cause(messages, run, b"unknown", say::UNKNOWN_CHECK);
    }
    let line = cut(run.answer, b'\n').0;
    if line.ends_with(b"steps") {
        put_steps(alloc, messages, run)?;
    } else if line.ends_with(b"overflow") {
        put_cause(messages, run, b"UNKNOWN: overflow", say::OVERFLOW_NUMBER)?;
    } else {
        put_cause(messages, run, b"UNKNOWN: branch", say::BRANCH_LENGTH)?;
    }
    let Some(counts) = run.counts else {
        return Ok(());
    };
    put_taken(alloc, messages, run.file, counts)?;
    match run.file_text {
        Some(text) => {
            let most = counts.most_instantiated();
            put_instances(alloc, messages, run.file, text, most)
        }
        None => Ok(()),
    }
}

fn put_cause(
    messages: &mut Messages,
    run: &Run,
    name: &'static [u8],
    sentence: &'static str,
) -> Result<(), Memory> {
    let slip = Slip::new(sentence).with_name(Hole::Grouped(run.budget));
    put_placeless(messages, run.file, Severity::Note, name, &slip)
}

/// Puts that the steps ended: one by one, or by a single rule that asked for more than were left.
fn put_steps(alloc: Global, messages: &mut Messages, run: &Run) -> Result<(), Memory> {
    let name = b"UNKNOWN: steps";
    let Some(left) = left_at_once(run) else {
        return put_cause(messages, run, name, say::STEPS_STEPS);
    };
    let slip = Slip::new(say::STEPS_AT_ONCE)
        .with_name(Hole::Grouped(run.budget.saturating_sub(left)))
        .with_other(Hole::Grouped(left));
    put_placeless(messages, run.file, Severity::Note, name, &slip)?;
    match run.file_text {
        Some(text) => put_greatest(alloc, messages, run.file, text),
        None => Ok(()),
    }
}

/// How many steps were left of the budget when the canonical run was cut, where they are many.
fn left_at_once(run: &Run) -> Option<u64> {
    let counts: &Counts = run.counts?;
    if counts.stage() != Some(Stage::Canonical) || counts.budget() != run.budget {
        return None;
    }
    let left = run.budget.saturating_sub(counts.last.steps);
    if left >= LEFT { Some(left) } else { None }
}

/// The fewest digits of a number that makes a rule dear.
const LARGE: usize = 3;

/// Puts where the greatest number of a problem's file stands, where that is large.
fn put_greatest(
    alloc: Global,
    messages: &mut Messages,
    file: &str,
    text: &[u8],
) -> Result<(), Memory> {
    let found = lexemes(alloc, text)?;
    let mut greatest: Option<Lexeme> = None;
    for lexeme in found.as_slice() {
        if lexeme.terminal == Terminal::Number && is_greater(text, lexeme, &greatest) {
            greatest = Some(*lexeme);
        }
    }
    let Some(lexeme) = greatest else {
        return Ok(());
    };
    if significant(spelling(text, &lexeme)).len() < LARGE {
        return Ok(());
    }
    let subject = Subject {
        file,
        severity: Severity::Note,
        name: b"",
        spot: Some((text, lexeme.at as usize)),
    };
    messages.put(&subject, &Slip::new(say::GREATEST_NUMBER))
}

/// Whether a numeral is greater than another one, if there is another one.
fn is_greater(text: &[u8], lexeme: &Lexeme, other: &Option<Lexeme>) -> bool {
    let Some(other) = other else {
        return true;
    };
    let one = significant(spelling(text, lexeme));
    let two = significant(spelling(text, other));
    if one.len() != two.len() {
        return one.len() > two.len();
    }
    for (a, b) in one.iter().zip(two.iter()) {
        if a != b {
            return a > b;
        }
    }
    false
}

/// The digits of a numeral from the first that is not 0 on.
fn significant(digits: &[u8]) -> &[u8] {
    for (i, digit) in digits.iter().enumerate() {
        if *digit != b'0' {
            return digits.get(i..).unwrap_or(&[]);
        }
    }
    &[]
}
