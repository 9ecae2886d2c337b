// What is said of a refused script that is a problem's file, and of a refused file whose bytes are not held.

use crate::run_sentences as say;
use linear_term::Memory;
use message_lines::{Hole, Messages, Refusal, Severity, Slip, Spot, put_placeless, put_refused};
use message_problems::Problem;
use message_scripts::put_script_refusal;
use std::alloc::Global;

/// Puts what is said of a refused script, which may be a problem's file, of this name and with these bytes.
pub(crate) fn put_refused_script(
    alloc: Global,
    messages: &mut Messages,
    name: &str,
    text: &[u8],
    refusal: &Refusal,
) -> Result<(), Memory> {
    match refusal.place {
        Some(place) if refusal.name == b"Syntax".as_slice() && begins_problem(alloc, text)? => {
            let spot = Spot {
                name,
                text,
                at: place as usize,
            };
            put_refused(messages, &spot, refusal.name, &Slip::new(say::PRI))
        }
        _ => put_script_refusal(alloc, messages, name, text, refusal),
    }
}

/// Whether the first token, as a problem's file has them, is a command.
fn begins_problem(alloc: Global, text: &[u8]) -> Result<bool, Memory> {
    let lexemes = pri_tokens::lexemes(alloc, text)?;
    let problem = Problem {
        bytes: text,
        lexemes: lexemes.as_slice(),
    };
    Ok(problem.text(0).starts_with(b"\\"))
}

/// Puts what is said where the bytes of a refused file are not held.
pub(crate) fn put_lost(
    messages: &mut Messages,
    name: &str,
    refusal: &Refusal,
) -> Result<(), Memory> {
    let is_byte = !matches!(refusal.name, b"node" | b"range" | b"cost" | b"line");
    let sentence = if is_byte {
        say::PLACE_LOST
    } else {
        say::PLACE_NODE
    };
    let slip = Slip::new(sentence).with_name(Hole::Number(refusal.place.unwrap_or(0)));
    put_placeless(messages, name, Severity::Error, refusal.name, &slip)
}
