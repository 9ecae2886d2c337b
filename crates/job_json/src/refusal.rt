// What a line of a refusal says, and where in the file that is.

use crate::object::Object;
use job_messages::{Message, Severity};
use linear_term::Memory;
use message_lines::{cut, number};

/// Writes a member for a refusal, as `Syntax at 45`, `Large` or `node 3`. Line, column and sentence are those of the error that is
/// told of it.
pub(crate) fn write_refusal(
    object: &mut Object,
    refusal: &[u8],
    messages: &[Message],
) -> Result<(), Memory> {
    object.key("refusal")?;
    object.open()?;
    write_name(object, refusal)?;
    if let Some(message) = messages.first()
        && message.severity == Severity::Error
    {
        if let Some(place) = message.place {
            object.number_member("line", place.line)?;
            object.number_member("column", place.column)?;
        }
        object.text_member("sentence", message.sentence.as_slice())?;
    }
    object.close()
}

/// Writes the name of a refusal, and its byte or its number.
fn write_name(object: &mut Object, refusal: &[u8]) -> Result<(), Memory> {
    let (name, behind) = cut(refusal, b' ');
    let behind = behind.unwrap_or(&[]);
    if let Some(byte) = number(behind.strip_prefix(b"at ").unwrap_or(&[])) {
        object.text_member("name", name)?;
        return object.number_member("byte", byte);
    }
    if let Some(number) = number(behind) {
        object.text_member("name", name)?;
        return object.number_member("number", number);
    }
    object.text_member("name", refusal)
}
