// The members of an object for the lines of an answer.

use crate::counterexample::write_counterexample;
use crate::object::Object;
use crate::refusal::write_refusal;
use crate::text::{first_line, labelled};
use crate::values::write_values;
use job_messages::Message;
use linear_term::Memory;
use message_lines::cut;

/// Writes the members for the lines of an answer to a problem, without those of a proof. What is known of a refusal stands in the messages.
pub(crate) fn write_answer(
    object: &mut Object,
    answer: &[u8],
    messages: &[Message],
) -> Result<(), Memory> {
    let line = first_line(answer).0;
    if line.is_empty() {
        return object.text_or_null("answer", None);
    }
    if let Some(refusal) = line.strip_prefix(b"refused: ") {
        object.text_member("answer", b"refused")?;
        return write_refusal(object, refusal, messages);
    }
    if let Some(refusal) = line.strip_prefix(b"refused proof: ") {
        object.text_member("answer", b"refused proof")?;
        return write_refusal(object, refusal, messages);
    }
    write_verdict(object, line)?;
    write_lines(object, answer)
}

/// Writes members for the first line: its verdict, and the count and the cause that it may have.
fn write_verdict(object: &mut Object, line: &[u8]) -> Result<(), Memory> {
    let mut verdict = line;
    if let Some(behind) = line.strip_prefix(b"drill ")
        && let (count, Some(told)) = cut(behind, b':')
    {
        object.text_member("count", count)?;
        verdict = told.trim_ascii();
    }
    if verdict.starts_with(b"constraint: ") {
        return object.text_member("answer", b"constraint");
    }
    if verdict.starts_with(b"solution: ") {
        return object.text_member("answer", b"solution");
    }
    if let Some(least) = verdict.strip_prefix(b"least: ") {
        object.text_member("answer", b"least")?;
        return object.text_member("least", least);
    }
    if let Some(cause) = verdict.strip_prefix(b"UNKNOWN: ") {
        object.text_member("answer", b"UNKNOWN")?;
        return object.text_member("cause", cause);
    }
    object.text_member("answer", verdict)
}

/// Writes members for the lines after the first one, and for a first one that is a constraint or a solution.
fn write_lines(object: &mut Object, answer: &[u8]) -> Result<(), Memory> {
    if let Some(constraint) = labelled(answer, b"constraint: ") {
        object.text_member("constraint", constraint)?;
    }
    if let Some(values) = labelled(answer, b"solution: ") {
        object.key("solution")?;
        write_values(object, values)?;
    }
    if let Some(values) = labelled(answer, b"at: ") {
        object.key("at")?;
        write_values(object, values)?;
    }
    write_interpolants(object, answer)?;
    write_counterexample(object, answer)
}

/// Writes a member for the lines of interpolants, if there are any.
fn write_interpolants(object: &mut Object, answer: &[u8]) -> Result<(), Memory> {
    if labelled(answer, b"interpolant").is_none() {
        return Ok(());
    }
    object.key("interpolants")?;
    object.open_list()?;
    let mut rest = answer;
    for _ in 0..answer.len() {
        let (line, behind) = first_line(rest);
        write_interpolant(object, line)?;
        rest = behind;
    }
    object.close_list()
}

/// Writes an object for a line of an interpolant: its formula, or the cause why there is none.
fn write_interpolant(object: &mut Object, line: &[u8]) -> Result<(), Memory> {
    let (name, told) = if let Some(formula) = line.strip_prefix(b"interpolant: ") {
        ("formula", formula)
    } else if let Some(cause) = line.strip_prefix(b"interpolant unknown: ") {
        ("unknown", cause)
    } else {
        return Ok(());
    };
    object.open()?;
    object.text_member(name, told)?;
    object.close()
}
