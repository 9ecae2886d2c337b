// What is said of a refused script.

use crate::script_further::put_further_commands;
use crate::script_sentences as say;
use crate::scripts::script_slip;
use linear_term::Memory;
use message_lines::{
    Hole, Messages, Refusal, Script, Severity, Slip, Spot, put_placeless, put_refused,
};
use std::alloc::Global;

/// Puts what is said of a refused script, whose file has this name and these bytes.
pub fn put_script_refusal(
    alloc: Global,
    messages: &mut Messages,
    name: &str,
    text: &[u8],
    refusal: &Refusal,
) -> Result<(), Memory> {
    let Some(place) = refusal.place else {
        let slip = Slip::new(say::LARGE);
        return put_placeless(messages, name, Severity::Error, refusal.name, &slip);
    };
    let spot = Spot {
        name,
        text,
        at: place as usize,
    };
    let lexemes = smt_tokens::lexemes(alloc, text)?;
    let script = Script {
        bytes: text,
        lexemes: lexemes.as_slice(),
    };
    let k = script.token_at(spot.at);
    let slip = script_slip(script, refusal.name, k).at(Hole::Token(script.text(k)), b"");
    put_refused(messages, &spot, refusal.name, &slip)?;
    put_further_commands(messages, name, script, refusal.name, k)
}
