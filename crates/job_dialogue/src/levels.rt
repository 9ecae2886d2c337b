// The commands that need no answer of a script: they open and leave levels, begin anew, end, and say how the dialogue goes.

ghost use Rattle.job_dialogue.specs.Held.{behaving, done, ending, fails, leaving, left, opened, opening, or_success, restarting, succeeding};
ghost use Rattle.job_dialogue.specs.Views.{held_of, outcome_of};
ghost use Rattle.std.specs.Prelude.{◌≡◌, ◌≤◌, IfOk, vec_len};

use crate::dialogue::{Dialogue, Reply};
use crate::errors::error_line;
use linear_term::Memory;
use smt_commands::ScriptRefusal;
use std::alloc::Global;

/// How many levels may be open.
const LEVELS: u128 = 10_000;

/// Opens this many levels more.
pub(crate) fn opening(alloc: Global, dialogue: Dialogue, levels: u128) -> Result<Reply, Memory>
    ensures { IfOk result (λ r. outcome_of r ≡ opening levels (held_of dialogue)) }
{
    if levels > LEVELS || dialogue.marks.len() as u128 + levels > LEVELS {
        return fails(alloc, dialogue, ScriptRefusal::Deep(0));
    }
    let dialogue = opened(alloc, dialogue, levels as usize)?;
    done(alloc, dialogue)
}

/// The dialogue with this many levels more.
fn opened(alloc: Global, dialogue: Dialogue, levels: usize) -> Result<Dialogue, Memory>
    ensures { IfOk result (λ d. held_of d ≡ opened levels (held_of dialogue)) }
{
    let mut dialogue = dialogue;
    let more = vec![in alloc; dialogue.text.len(); levels]?;
    dialogue.marks.extend_from_slice(more.as_slice())?;
    dialogue.checked = None;
    Ok(dialogue)
}

/// Leaves this many levels.
pub(crate) fn leaving(alloc: Global, dialogue: Dialogue, levels: u128) -> Result<Reply, Memory>
    ensures { IfOk result (λ r. outcome_of r ≡ leaving levels (held_of dialogue)) }
{
    let open = dialogue.marks.len();
    if levels > open as u128 {
        return fails(alloc, dialogue, ScriptRefusal::Profile(0));
    }
    done(alloc, left(dialogue, levels as usize))
}

/// The dialogue with this many levels fewer.
fn left(dialogue: Dialogue, levels: usize) -> Dialogue
    requires { levels ≤ vec_len dialogue.marks }
    ensures { held_of result ≡ left levels (held_of dialogue) }
{
    let mut dialogue = dialogue;
    let kept = dialogue.marks.len() - levels;
    let mark = match dialogue.marks.get(kept) {
        Some(mark) => *mark,
        None => dialogue.text.len(),
    };
    dialogue.text.truncate(mark);
    dialogue.marks.truncate(kept);
    dialogue.checked = None;
    dialogue
}

/// Begins anew: nothing is in force, and no level is open.
pub(crate) fn restarting(alloc: Global, dialogue: Dialogue) -> Result<Reply, Memory>
    ensures { IfOk result (λ r. outcome_of r ≡ restarting (held_of dialogue)) }
{
    let mut dialogue = dialogue;
    dialogue.text.clear();
    dialogue.marks.clear();
    dialogue.checked = None;
    done(alloc, dialogue)
}

/// Ends the dialogue.
pub(crate) fn ending(alloc: Global, dialogue: Dialogue) -> Result<Reply, Memory>
    ensures { IfOk result (λ r. outcome_of r ≡ ending (held_of dialogue)) }
{
    let mut dialogue = dialogue;
    dialogue.ended = true;
    done(alloc, dialogue)
}

/// Says whether commands are answered by `success` from here on.
pub(crate) fn succeeding(alloc: Global, dialogue: Dialogue, succeeds: bool) -> Result<Reply, Memory>
    ensures { IfOk result (λ r. outcome_of r ≡ succeeding succeeds (held_of dialogue)) }
{
    let mut dialogue = dialogue;
    dialogue.succeeds = succeeds;
    done(alloc, dialogue)
}

/// Says what a dialogue does after an error: it goes on.
pub(crate) fn behaving(alloc: Global, dialogue: Dialogue) -> Result<Reply, Memory>
    ensures { IfOk result (λ r. outcome_of r ≡ behaving (held_of dialogue)) }
{
    let text = Vec::from_slice(alloc, b"(:error-behavior continued-execution)\n")?;
    Ok(Reply { dialogue, text })
}

/// A command is done.
fn done(alloc: Global, dialogue: Dialogue) -> Result<Reply, Memory>
    ensures { IfOk result (λ r. outcome_of r ≡ done (held_of dialogue)) }
{
    let text = or_success(alloc, dialogue.succeeds, Vec::new(alloc))?;
    Ok(Reply { dialogue, text })
}

/// A command is refused.
fn fails(alloc: Global, dialogue: Dialogue, e: ScriptRefusal) -> Result<Reply, Memory>
    ensures { IfOk result (λ r. outcome_of r ≡ fails (held_of dialogue) e) }
{
    let text = error_line(alloc, dialogue.spot, e)?;
    Ok(Reply { dialogue, text })
}

/// An answer, or `success` where that is asked for and there is no other.
pub(crate) fn or_success(alloc: Global, succeeds: bool, text: Vec<u8>) -> Result<Vec<u8>, Memory>
    ensures { IfOk result (λ answer. answer.items ≡ or_success succeeds text.items) }
{
    if succeeds && text.is_empty() {
        return Ok(Vec::from_slice(alloc, b"success\n")?);
    }
    Ok(text)
}
