// What an answer may hide: types without values, scripts that ask nothing, and assumptions that contradict one another.

use crate::assumptions::Vacuity;
use crate::run_sentences as say;
use linear_term::Memory;
use message_lines::{Hole, Messages, Script, Severity, Slip, Spot, put_placeless};
use message_problems::{Problem, has_existential};
use pri_tokens::Terminal;
use std::alloc::Global;

/// How many types without values are told at most.
const MOST: usize = 10;

/// Puts a warning for each of the first types of a problem's file that have no values.
pub(crate) fn put_empty_types<'x>(
    alloc: Global,
    messages: &mut Messages,
    file: &'x str,
    text: &'x [u8],
) -> Result<(), Memory> {
    if !text.contains(&b'[') {
        return Ok(());
    }
    let lexemes = pri_tokens::lexemes(alloc, text)?;
    let problem = Problem {
        bytes: text,
        lexemes: lexemes.as_slice(),
    };
    for k in 0..problem.len() {
        if messages.len() < MOST
            && let Some((lower, upper)) = empty_range(&problem, k)
        {
            let slip = Slip::named(say::EMPTY_TYPE, bound_text(&problem, lower)).with_other(
                Hole::Text(bound_text(&problem, upper)),
            );
            put_warning(messages, file, text, problem.offset(k), &slip)?;
        }
    }
    Ok(())
}

/// A bound of a type: the token of its number, and whether a sign - stands before it.
#[derive(Clone, Copy)]
struct Bound {
    token: usize,
    is_negative: bool,
}

/// The bounds of the type that begins at token k, where it has some and no values.
fn empty_range(p: &Problem, k: usize) -> Option<(Bound, Bound)> {
    let open = k.checked_add(1)?;
    if p.terminal(k) != Some(Terminal::Int) || p.terminal(open) != Some(Terminal::OpenBracket) {
        return None;
    }
    let lower = bound_at(p, open.checked_add(1)?)?;
    let comma = lower.token.checked_add(1)?;
    if p.terminal(comma) != Some(Terminal::Comma) {
        return None;
    }
    let upper = bound_at(p, comma.checked_add(1)?)?;
    if value_of(p, lower)? > value_of(p, upper)? {
        Some((lower, upper))
    } else {
        None
    }
}

/// The bound that begins at token k.
fn bound_at(p: &Problem, k: usize) -> Option<Bound> {
    let is_negative = p.terminal(k) == Some(Terminal::Minus);
    let token = if is_negative { k.checked_add(1)? } else { k };
    if p.terminal(token) == Some(Terminal::Number) {
        Some(Bound { token, is_negative })
    } else {
        None
    }
}

fn value_of(p: &Problem, bound: Bound) -> Option<i128> {
    let mut value: i128 = 0;
    for byte in p.text(bound.token) {
        value = value
            .checked_mul(10)?
            .checked_add(byte.saturating_sub(b'0') as i128)?;
    }
    if bound.is_negative {
        value.checked_neg()
    } else {
        Some(value)
    }
}

/// The bytes of a bound, from its sign on.
fn bound_text<'a>(p: &Problem<'a>, bound: Bound) -> &'a [u8] {
    let from = if bound.is_negative {
        p.offset(bound.token.saturating_sub(1))
    } else {
        p.offset(bound.token)
    };
    let to = p
        .offset(bound.token)
        .saturating_add(p.text(bound.token).len());
    p.bytes.get(from..to).unwrap_or(b"")
}

/// Puts a warning of a script that asks nothing, or nothing after its last assertions.
pub(crate) fn put_unasked<'x>(
    alloc: Global,
    messages: &mut Messages,
    file: &'x str,
    text: &'x [u8],
) -> Result<(), Memory> {
    let lexemes = smt_tokens::lexemes(alloc, text)?;
    let script = Script {
        bytes: text,
        lexemes: lexemes.as_slice(),
    };
    let commands = commands_of(&script);
    let (at, sentence) = match (commands.has_check, commands.unasked, commands.last) {
        (true, None, _) => return Ok(()),
        (true, Some(k), _) => (script.offset(k), say::UNASKED_ASSERTION),
        (false, _, Some(k)) => (script.offset(k), say::NO_CHECK),
        (false, _, None) => (text.len(), say::NO_CHECK),
    };
    put_warning(messages, file, text, at, &Slip::new(sentence))
}

/// What a script asks: whether it has a check, the first assertion after its last check, and its last command.
#[derive(Clone, Copy)]
struct Commands {
    has_check: bool,
    unasked: Option<usize>,
    last: Option<usize>,
}

/// The commands of a script up to its end.
fn commands_of(script: &Script) -> Commands {
    let mut commands = Commands {
        has_check: false,
        unasked: None,
        last: None,
    };
    let mut depth: usize = 0;
    for k in 0..script.len() {
        if script.opens(k) {
            if depth == 0 {
                commands.last = Some(k);
                match script.text_behind(k, 1) {
                    b"exit" => return commands,
                    b"check-sat" | b"check-sat-assuming" => {
                        commands.has_check = true;
                        commands.unasked = None;
                    }
                    b"assert" => commands.unasked = Some(commands.unasked.unwrap_or(k)),
                    _ => {}
                }
            }
            depth = depth.saturating_add(1);
        } else if script.closes(k) {
            depth = depth.saturating_sub(1);
        }
    }
    commands
}

/// Puts a warning for each of the named assertions of a script that its checks do not need, by the places of their names.
pub(crate) fn put_unused<'x>(
    messages: &mut Messages,
    file: &'x str,
    text: &'x [u8],
    unused: &[usize],
) -> Result<(), Memory> {
    for at in unused {
        let spot = Spot {
            name: file,
            text,
            at: *at,
        };
        let subject = spot.subject(Severity::Warning, b"unused");
        messages.put(&subject, &Slip::new(say::UNUSED_ASSERTION))?;
    }
    Ok(())
}

/// Puts what a second question says of the assumptions of a problem.
pub(crate) fn put_vacuity<'x>(
    alloc: Global,
    messages: &mut Messages,
    file: &'x str,
    text: &'x [u8],
    vacuity: Vacuity,
) -> Result<(), Memory> {
    let (severity, at, sentence) = match vacuity {
        Vacuity::Unasked => return Ok(()),
        Vacuity::NoAssumptions => {
            let slip = Slip::new(say::VACUITY_NO_ASSUMPTIONS);
            return put_placeless(messages, file, Severity::Note, b"vacuity", &slip);
        }
        Vacuity::Intended(at) => (Severity::Note, at, say::VACUITY_INTENDED),
        Vacuity::Consistent(at) => (Severity::Note, at, say::VACUITY_CONSISTENT),
        Vacuity::Contradiction(at) => {
            (Severity::Warning, at, contradiction_sentence(alloc, text)?)
        }
        Vacuity::Unknown(at) => (Severity::Note, at, say::VACUITY_UNKNOWN),
    };
    let spot = Spot {
        name: file,
        text,
        at,
    };
    messages.put(&spot.subject(severity, b"vacuity"), &Slip::new(sentence))
}

/// The sentence where a second run shows that assumptions contradict one another: at some values of the existential constants, if the
/// file has any.
fn contradiction_sentence(alloc: Global, text: &[u8]) -> Result<&'static str, Memory> {
    let lexemes = pri_tokens::lexemes(alloc, text)?;
    let problem = Problem {
        bytes: text,
        lexemes: lexemes.as_slice(),
    };
    Ok(if has_existential(&problem) {
        say::VACUITY_AT_SOME
    } else {
        say::VACUITY_CONTRADICTION
    })
}

fn put_warning<'x>(
    messages: &mut Messages,
    file: &'x str,
    text: &'x [u8],
    at: usize,
    slip: &Slip,
) -> Result<(), Memory> {
    let spot = Spot {
        name: file,
        text,
        at,
    };
    messages.put(&spot.subject(Severity::Warning, b""), slip)
}
