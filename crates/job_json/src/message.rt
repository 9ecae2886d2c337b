// Messages as a list of objects.

use crate::object::Object;
use job_messages::Message;
use linear_term::Memory;

/// Writes a member for messages: a list of objects.
pub(crate) fn write_messages(object: &mut Object, messages: &[Message]) -> Result<(), Memory> {
    object.key("messages")?;
    object.open_list()?;
    for message in messages {
        write_message(object, message)?;
    }
    object.close_list()
}

fn write_message(object: &mut Object, message: &Message) -> Result<(), Memory> {
    object.open()?;
    object.text_member("severity", message.severity.word().as_bytes())?;
    object.text_member("file", message.file.as_slice())?;
    if let Some(place) = message.place {
        object.number_member("byte", place.byte)?;
        object.number_member("line", place.line)?;
        object.number_member("column", place.column)?;
    }
    if !message.name.is_empty() {
        object.text_member("name", message.name.as_slice())?;
    }
    object.text_member("sentence", message.sentence.as_slice())?;
    object.close()
}
