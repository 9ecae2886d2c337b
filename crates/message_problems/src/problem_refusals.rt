// What is said of a refused problem's file.

use crate::further::put_further;
use crate::meanings::meaning_slip;
use crate::problem::Problem;
use crate::problem_sentences as say;
use crate::syntax::syntax_slip;
use linear_term::Memory;
use message_lines::{Hole, Messages, Refusal, Severity, Slip, Spot, put_placeless, put_refused};
use std::alloc::Global;

/// Puts what is said of a refused problem, whose file has this name and these bytes.
pub fn put_problem_refusal(
    alloc: Global,
    messages: &mut Messages,
    name: &str,
    text: &[u8],
    refusal: &Refusal,
) -> Result<(), Memory> {
    let Some(place) = refusal.place else {
        let sentence = match refusal.name {
            b"Large" => say::LARGE_FORMULA,
            _ => say::OBJECTIVE_TERM,
        };
        let slip = Slip::new(sentence);
        return put_placeless(messages, name, Severity::Error, refusal.name, &slip);
    };
    let spot = Spot {
        name,
        text,
        at: place as usize,
    };
    let lexemes = pri_tokens::lexemes(alloc, text)?;
    let problem = Problem {
        bytes: text,
        lexemes: lexemes.as_slice(),
    };
    let slip = problem_slip(&problem, refusal.name, spot.at);
    put_refused(messages, &spot, refusal.name, &slip)?;
    put_further(alloc, messages, name, text, refusal.name, spot.at)
}

/// What is wrong with a problem that is refused at this offset, by the name of the refusal.
pub(crate) fn problem_slip<'a>(problem: &Problem<'a>, name: &[u8], at: usize) -> Slip<'a> {
    let k = problem.token_at(at);
    let token = if k < problem.len() {
        Hole::Token(problem.text(k))
    } else {
        Hole::Text(b"the end of the file")
    };
    let before = problem.text_before(k, 1);
    match name {
        b"Literal" => return Slip::new(say::LITERAL_TOO_LARGE),
        b"Deep" => return Slip::new(say::DEEP_TOO_DEEP),
        b"Syntax" => return syntax_slip(problem, k).at(token, before),
        _ => {}
    }
    meaning_slip(problem, name, k).at(token, before)
}
