// The commands that the script of what is in force answers.

ghost use Rattle.base_limits.specs.Limits.{most_budget};
ghost use Rattle.job_dialogue.specs.Dialogue.{IsAsked, IsRefusal, IsTakenStatus, behind_line, check_before, front_of, taken, told};
ghost use Rattle.job_dialogue.specs.Spots.{spot_after};
ghost use Rattle.job_dialogue.specs.Views.{held_of, outcome_of};
ghost use Rattle.smt_commands.specs.Least.{place_in};
ghost use Rattle.std.specs.Prelude.{MatchBool, ◌≡◌, ◌≤◌, ◌-◌, IfOk, take};

use crate::dialogue::{Dialogue, Reply, front};
use crate::errors::error_line;
use crate::kinds::Kind;
use crate::levels::or_success;
use crate::spots::{Spot, spot_after};
use base_answers::status::{UNKNOWN, VALID};
use base_watch::Watch;
use job_smt::answer;
use linear_term::Memory;
use smt_commands::{ScriptRefusal, place_in};
use smt_reader::script;
use std::alloc::Global;

/// Asks the script of what is in force and a command of this kind. Where it is refused, the error is told and nothing changes.
pub(crate) fn ask<X: Watch>(
    alloc: Global,
    dialogue: Dialogue,
    kind: Kind,
    body: &[u8],
    budget: u64,
    watch: &mut X,
) -> Result<Reply, Memory>
    requires { budget ≤ most_budget }
    ensures { IfOk result (λ r. IsAsked budget (held_of dialogue) kind body.now (outcome_of r)) }
{
    let mut asked = front_of(alloc, &dialogue, kind)?;
    let before = asked.as_slice().len() as u64;
    asked.extend_from_slice(body)?;
    let output = answer(alloc, asked.as_slice(), budget, watch)?;
    if is_taken(output.status) {
        let text = told(alloc, kind, &dialogue, output.text)?;
        let dialogue = taken(alloc, kind, body, dialogue)?;
        return Ok(Reply { dialogue, text });
    }
    let e = refusal(alloc, asked.as_slice())?;
    let spot = spot_of(dialogue.spot, before, body, e)?;
    let text = error_line(alloc, spot, e)?;
    Ok(Reply { dialogue, text })
}

/// Whether a script with this status is answered to its end.
fn is_taken(status: u8) -> bool
    ensures { MatchBool result (IsTakenStatus status) (¬ (IsTakenStatus status)) }
{
    status == VALID || status == UNKNOWN
}

/// What stands before a command in the script that is asked.
fn front_of(alloc: Global, dialogue: &Dialogue, kind: Kind) -> Result<Vec<u8>, Memory>
    ensures { IfOk result (λ text. text.items ≡ front_of (held_of dialogue.now) kind) }
{
    let mut text = Vec::from_slice(alloc, dialogue.text.as_slice())?;
    text.extend_from_slice(check_before(dialogue, kind))?;
    Ok(text)
}

/// The check that stands before a command which asks for its model.
fn check_before(dialogue: &Dialogue, kind: Kind) -> &[u8]
    ensures { result.now ≡ check_before kind (held_of dialogue.now).checked }
{
    match kind {
        Kind::Shows => match &dialogue.checked {
            Some(check) => check.as_slice(),
            None => &[],
        },
        Kind::Keeps
        | Kind::Asks
        | Kind::Opens(_)
        | Kind::Leaves(_)
        | Kind::Restarts
        | Kind::Ends
        | Kind::Succeeds(_)
        | Kind::Behaves
        | Kind::Says => &[],
    }
}

/// Why a script with these bytes is refused; where it is none of its commands, one of its checks is too large.
fn refusal(alloc: Global, bytes: &[u8]) -> Result<ScriptRefusal, Memory>
    ensures { IfOk result (λ e. IsRefusal bytes.now e) }
{
    match script(alloc, bytes) {
        Ok(_) => Ok(ScriptRefusal::Large),
        Err(e) => {
            if let ScriptRefusal::Memory = e {
                return Err(Memory);
            }
            Ok(e)
        }
    }
}

/// The place of a refusal of a command, before which this many bytes stand in the script, and which begins at this spot.
fn spot_of(spot: Spot, before: u64, body: &[u8], e: ScriptRefusal) -> Result<Spot, Memory>
    ensures { IfOk result (λ found. found ≡ spot_after spot (take (place_in e - before) body.now)) }
{
    let at = place_in(e).saturating_sub(before);
    spot_after(spot, front(body, at))
}

/// What is told of the answer of the script to a command of this kind.
fn told(alloc: Global, kind: Kind, dialogue: &Dialogue, text: Vec<u8>) -> Result<Vec<u8>, Memory>
    ensures { IfOk result (λ answer. answer.items ≡ told kind (held_of dialogue.now) text.items) }
{
    match kind {
        Kind::Asks => Ok(text),
        Kind::Shows => match &dialogue.checked {
            Some(_) => Ok(Vec::from_slice(alloc, behind_line(text.as_slice()))?),
            None => or_success(alloc, dialogue.succeeds, text),
        },
        Kind::Keeps
        | Kind::Opens(_)
        | Kind::Leaves(_)
        | Kind::Restarts
        | Kind::Ends
        | Kind::Succeeds(_)
        | Kind::Behaves
        | Kind::Says => or_success(alloc, dialogue.succeeds, text),
    }
}

/// A text after its first line.
#[tactic(auto, using(crate::proofs::Lines::line_goes_on, crate::proofs::Lines::line_ends, crate::proofs::Lines::line_short))]
fn behind_line(text: &[u8]) -> &[u8]
    ensures { result.now ≡ behind_line text.now }
{
    let mut rest = text;
    while let Some((byte, behind)) = rest.split_first() {
        if *byte == b'\n' {
            return behind;
        }
        rest = behind;
    }
    rest
}

/// What is held after a command of this kind is taken.
fn taken(alloc: Global, kind: Kind, body: &[u8], dialogue: Dialogue) -> Result<Dialogue, Memory>
    ensures { IfOk result (λ d. held_of d ≡ taken kind body.now (held_of dialogue)) }
{
    let mut dialogue = dialogue;
    match kind {
        Kind::Keeps => {
            dialogue.text.extend_from_slice(body)?;
            dialogue.checked = None;
        }
        Kind::Asks => dialogue.checked = Some(Vec::from_slice(alloc, body)?),
        Kind::Shows
        | Kind::Opens(_)
        | Kind::Leaves(_)
        | Kind::Restarts
        | Kind::Ends
        | Kind::Succeeds(_)
        | Kind::Behaves
        | Kind::Says => {}
    }
    Ok(dialogue)
}
