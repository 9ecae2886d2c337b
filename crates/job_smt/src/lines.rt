// The answers to checks, and the text that tells them.

ghost use Rattle.base_limits.specs.Limits.{most_budget};
ghost use Rattle.pri_typing.specs.WellFormed.{IsWellFormed};
ghost use Rattle.job_smt.specs.Answers.{is_open, reason, replied, shown, told_model, told_reason, told_values, values_shown, word};
ghost use Rattle.job_smt.specs.Lines.{AreGiven, asks_for_model, last_of, raised};
ghost use Rattle.std.specs.List.{All, list_any};
ghost use Rattle.std.specs.Prelude.{◌≡◌, ◌≤◌, ◌++◌, [], IfOk, OnOk, cond};

use crate::checking::{Cause, CheckAnswer};
use crate::models::{Checked, Shown, check_with_model};
use base_answers::status::{UNKNOWN, VALID};
use base_watch::Watch;
use linear_term::Memory;
use pri_typing::Problem;
use smt_models::put_values_of;
use smt_reader::Reply;
use sqlite_items::Items;
use std::alloc::Global;

/// The answers to checks, in order.
#[derive(Drop)]
pub(crate) struct Answers {
    pub(crate) given: Items<Checked>,
    /// Whether the encoding of the next check is too large; else all are answered.
    pub(crate) stopped: bool,
}

/// The answers to the checks with these problems, each with this budget, and with models if they are asked for, up to one whose encoding
/// is too large. The one error is running out of memory.
pub(crate) fn answer_checks<X: Watch>(
    alloc: Global,
    problems: &[Problem],
    budget: u64,
    asks: bool,
    watch: &mut X,
) -> Result<Answers, Memory>
    requires formed { All IsWellFormed problems.now }
    requires alone { All (λ p. p.existentials ≡ []) problems.now }
    requires budget { budget ≤ most_budget }
    ensures { IfOk result (AreGiven budget problems.now) }
{
    let mut given = Items::new(alloc);
    for p in problems {
        let Some(answer) = check_with_model(alloc, p, budget, asks, watch)? else {
            return Ok(Answers {
                given,
                stopped: true,
            });
        };
        given.push(answer)?;
    }
    Ok(Answers {
        given,
        stopped: false,
    })
}

/// What is told of these replies, with these answers to the checks. The one error is running out of memory.
#[tactic(auto, using(crate::proofs::Telling::told_line, crate::proofs::Telling::told_reason_on, crate::proofs::Telling::told_model_on, crate::proofs::Telling::told_values_on, crate::proofs::Telling::told_change, crate::proofs::Telling::told_answer, crate::proofs::Telling::told_short, crate::proofs::Telling::told_end))]
pub(crate) fn replied(
    alloc: Global,
    replies: &[Reply],
    answers: &[Checked],
) -> Result<Vec<u8>, Memory>
    ensures { IfOk result (λ text. text.items ≡ replied replies.now answers.now) }
{
    let mut text = Vec::new(alloc);
    let mut left = answers;
    // The answers from the last one on that was told, if nothing has changed since.
    let mut last: &[Checked] = &[];
    let mut rest = replies;
    while let Some((reply, behind)) = rest.split_first() {
        match reply {
            Reply::Says(line) => text.extend_from_slice(line.as_slice())?,
            Reply::Reason => text.extend_from_slice(told_reason(last))?,
            Reply::Model => text.extend_from_slice(told_model(last))?,
            Reply::Values(names) => put_values(last, names.as_slice(), &mut text)?,
            Reply::Change => last = &[],
            Reply::Check => {
                let Some((answer, later)) = left.split_first() else {
                    return Ok(text);
                };
                text.extend_from_slice(word(answer.answer))?;
                last = left;
                left = later;
            }
        }
        rest = behind;
    }
    Ok(text)
}

/// Whether one of these replies is a model, or values in one.
pub(crate) fn asks_model(replies: &[Reply]) -> bool
    ensures { result ≡ list_any asks_for_model replies.now }
{
    for reply in replies {
        let asks = asks_for_model(reply);
        if asks {
            return true;
        }
    }
    false
}

// Whether a reply is a model, or values in one.
fn asks_for_model(reply: &Reply) -> bool
    ensures { result ≡ asks_for_model reply.now }
{
    match reply {
        Reply::Model | Reply::Values(_) => true,
        Reply::Check | Reply::Says(_) | Reply::Reason | Reply::Change => false,
    }
}

// What is told of why the answer to the first of these checks is unknown.
fn told_reason(last: &[Checked]) -> &'static [u8]
    ensures { result.now ≡ told_reason (last_of last.now) }
{
    match last.split_first() {
        Some((check, _)) => reason(check.answer),
        None => b"(error \"no answer is unknown\")\n",
    }
}

// Why this answer is unknown.
fn reason(answer: CheckAnswer) -> &'static [u8]
    ensures { result.now ≡ reason answer }
{
    match answer {
        CheckAnswer::Unknown(Cause::Steps) => b"(:reason-unknown steps)\n",
        CheckAnswer::Unknown(Cause::Overflow) => b"(:reason-unknown overflow)\n",
        CheckAnswer::Unknown(Cause::Branch) => b"(:reason-unknown branch)\n",
        CheckAnswer::Unsat | CheckAnswer::Sat => b"(error \"no answer is unknown\")\n",
    }
}

// What is told of the model of the first of these checks.
fn told_model(last: &[Checked]) -> &[u8]
    ensures { result.now ≡ told_model (last_of last.now) }
{
    match last.split_first() {
        Some((check, _)) => shown(&check.model),
        None => b"(error \"there is no model\")\n",
    }
}

// A model, or that there is none.
fn shown(model: &Option<Shown>) -> &[u8]
    ensures { result.now ≡ shown model.now }
{
    match model {
        Some(shown) => shown.text.as_slice(),
        None => b"(error \"there is no model\")\n",
    }
}

// Puts what is told of the values of these symbols in the model of the first of these checks after a text.
fn put_values(last: &[Checked], names: &[Items<u8>], text: &mut Vec<u8>) -> Result<(), Memory>
    ensures { OnOk result (text.new.items ≡ text.old.items ++ told_values (last_of last.now) names.now) }
{
    match last.split_first() {
        Some((check, _)) => put_shown(&check.model, names, text),
        None => {
            text.extend_from_slice(b"(error \"there is no model\")\n")?;
            Ok(())
        }
    }
}

// Puts the values of these symbols in a model after a text, or that there is none.
fn put_shown(model: &Option<Shown>, names: &[Items<u8>], text: &mut Vec<u8>) -> Result<(), Memory>
    ensures { OnOk result (text.new.items ≡ text.old.items ++ values_shown model.now names.now) }
{
    match model {
        Some(shown) => put_values_of(shown.values.as_slice(), names, text),
        None => {
            text.extend_from_slice(b"(error \"there is no model\")\n")?;
            Ok(())
        }
    }
}

/// The status of these answers.
#[tactic(auto, using(crate::proofs::Telling::raised_on, crate::proofs::Telling::raised_end))]
pub(crate) fn status_of(answers: &[Checked]) -> u8
    ensures { result ≡ cond (list_any is_open answers.now) 2 0 }
{
    let mut status = VALID;
    let mut rest = answers;
    while let Some((answer, behind)) = rest.split_first() {
        status = raised(status, answer.answer);
        rest = behind;
    }
    status
}

// The status after a further answer.
fn raised(status: u8, answer: CheckAnswer) -> u8
    ensures { result ≡ raised status answer }
{
    match answer {
        CheckAnswer::Unsat | CheckAnswer::Sat => status,
        CheckAnswer::Unknown(_) => UNKNOWN,
    }
}

// The line of an answer.
fn word(answer: CheckAnswer) -> &'static [u8]
    ensures { result.now ≡ word answer }
{
    match answer {
        CheckAnswer::Unsat => b"unsat\n",
        CheckAnswer::Sat => b"sat\n",
        CheckAnswer::Unknown(_) => b"unknown\n",
    }
}
