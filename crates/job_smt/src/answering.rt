// The answer to the bytes of a script.

ghost use Rattle.base_answers.specs.Answer.{answer_of, refused_answer};
ghost use Rattle.base_limits.specs.Limits.{most_budget};
ghost use Rattle.job_smt.specs.Answered.{IsBegun, IsSmtAnswer, before};
ghost use Rattle.job_smt.specs.Answers.{refused_after};
ghost use Rattle.smt_commands.specs.declared.refusal.ScriptRefusal.{ScriptRefusal};
ghost use Rattle.smt_reader.specs.Poses.{IsScriptRefusal, IsScriptWith};
ghost use Rattle.smt_reader.specs.declared.posing.Script.{Script};
ghost use Rattle.std.specs.Prelude.{◌≡◌, ◌≢◌, ◌<◌, ◌≤◌, IfOk, List, ℕ, length};

use crate::lines::{answer_checks, asks_model, replied, status_of};
use crate::refusals::refuse;
use base_answers::{Output, refused};
use base_watch::Watch;
use linear_term::Memory;
use smt_commands::{ScriptRefusal, place_in};
use smt_lists::last_cut;
use smt_reader::{Script, script};
use std::alloc::Global;

/// The answer to a script of these bytes: `unsat`, `sat` or `unknown` for each `check-sat`, in order, by the canonical run on its
/// problem, or the clause search, each with this budget; the model of the last check for each `get-model`; and the lines of the commands
/// that only say something. If the text is refused, or a
/// check is too large, the refusal stands after what is told of the commands before it. The one error is running out of memory.
pub fn answer<X: Watch>(
    alloc: Global,
    bytes: &[u8],
    budget: u64,
    watch: &mut X,
) -> Result<Output, Memory>
    requires { budget ≤ most_budget }
    ensures { IfOk result (λ output. IsSmtAnswer budget bytes.now (answer_of output)) }
{
    match script(alloc, bytes) {
        Ok(script) => answer_script(alloc, bytes, &script, budget, watch),
        Err(refusal) => answer_refused(alloc, bytes, refusal, budget, watch),
    }
}

// The answer to a script.
fn answer_script<X: Watch>(
    alloc: Global,
    bytes: &[u8],
    script: &Script,
    budget: u64,
    watch: &mut X,
) -> Result<Output, Memory>
    requires script { IsScriptWith bytes.now script.now.checks script.now.replies }
    requires budget { budget ≤ most_budget }
    ensures { IfOk result (λ output. IsSmtAnswer budget bytes.now (answer_of output)) }
{
    let asks = asks_model(script.replies.as_slice());
    let answers = answer_checks(alloc, script.checks.as_slice(), budget, asks, watch)?;
    let given = answers.given.as_slice();
    let text = replied(alloc, script.replies.as_slice(), given)?;
    if answers.stopped {
        return after(text, refused(alloc, b"Large")?);
    }
    Ok(Output {
        status: status_of(given),
        text,
    })
}

// The answer to a text that is refused so.
fn answer_refused<X: Watch>(
    alloc: Global,
    bytes: &[u8],
    refusal: ScriptRefusal,
    budget: u64,
    watch: &mut X,
) -> Result<Output, Memory>
    requires refused { IsScriptRefusal bytes.now refusal }
    requires budget { budget ≤ most_budget }
    ensures { IfOk result (λ output. IsSmtAnswer budget bytes.now (answer_of output)) }
{
    let told = refuse(alloc, refusal)?;
    let part = part_before(alloc, bytes, refusal)?;
    let text = begun(alloc, part, budget, watch)?;
    after(text, told)
}

// What is told of a text whose rest is refused.
fn begun<X: Watch>(
    alloc: Global,
    bytes: &[u8],
    budget: u64,
    watch: &mut X,
) -> Result<Vec<u8>, Memory>
    requires { budget ≤ most_budget }
    ensures { IfOk result (λ text. IsBegun budget bytes.now text.items) }
{
    match script(alloc, bytes) {
        Ok(script) => {
            let asks = asks_model(script.replies.as_slice());
            let found = answer_checks(alloc, script.checks.as_slice(), budget, asks, watch)?;
            replied(alloc, script.replies.as_slice(), found.given.as_slice())
        }
        Err(refusal) => {
            let part = part_before(alloc, bytes, refusal)?;
            begun(alloc, part, budget, watch)
        }
    }
}

// What stands before the refusal of a text. If memory ran out, there is none.
fn part_before(alloc: Global, bytes: &[u8], refusal: ScriptRefusal) -> Result<&[u8], Memory>
    requires refused { IsScriptRefusal bytes.now refusal }
    ensures part { IfOk result (λ part. part.now ≡ before bytes.now refusal) }
    ensures shorter { IfOk result (λ part. length part.now < length bytes.now) }
    ensures known { IfOk result (λ _. refusal ≢ ScriptRefusal.Memory) }
{
    if let ScriptRefusal::Memory = refusal {
        return Err(Memory);
    }
    let cut = last_cut(alloc, bytes, place_in(refusal))?;
    match bytes.get(..cut) {
        Some(part) => Ok(part),
        None => Ok(&[]),
    }
}

// The line of a refusal after a text.
fn after(text: Vec<u8>, refusal: Output) -> Result<Output, Memory>
    ensures { IfOk result (λ output. (name : List ℕ) → answer_of refusal ≡ refused_answer name → answer_of output ≡ refused_after text.items name) }
{
    let mut text = text;
    text.extend_from_slice(refusal.text.as_slice())?;
    Ok(Output {
        status: refusal.status,
        text,
    })
}
