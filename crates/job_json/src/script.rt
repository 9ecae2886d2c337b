// The members of an object for the lines of an answer to a script.

use crate::object::Object;
use crate::refusal::write_refusal;
use crate::text::first_line;
use job_messages::Message;
use linear_term::Memory;
use message_lines::last_line;

/// Writes the members for the lines of an answer to a script: those of its checks and of the commands that only say something, and then
/// the refusal, if the script is refused. What is known of a refusal stands in the messages.
pub(crate) fn write_script(
    object: &mut Object,
    answer: &[u8],
    is_refused: bool,
    messages: &[Message],
) -> Result<(), Memory> {
    if !is_refused {
        if answer.is_empty() {
            return object.text_or_null("answer", None);
        }
        object.text_member("answer", b"checks")?;
        return write_checks(object, answer);
    }
    let line = last_line(answer);
    object.text_member("answer", b"refused")?;
    let end = answer.len().saturating_sub(line.len().saturating_add(1));
    let front = answer.get(..end).unwrap_or(&[]);
    if !front.is_empty() {
        write_checks(object, front)?;
    }
    let refusal = line.strip_prefix(b"refused: ").unwrap_or(line);
    write_refusal(object, refusal, messages)
}

/// Writes a list of lines.
fn write_checks(object: &mut Object, lines: &[u8]) -> Result<(), Memory> {
    object.key("checks")?;
    object.open_list()?;
    let mut rest = lines;
    for _ in 0..lines.len() {
        if rest.is_empty() {
            return object.close_list();
        }
        let (line, behind) = first_line(rest);
        object.text(line)?;
        rest = behind;
    }
    object.close_list()
}
