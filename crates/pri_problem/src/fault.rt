// Why the bytes of a file are not held as a problem.

use pri_reader::ReadRefusal;
use pri_typing::TypeRefusal;

/// Why the bytes of a file are not held as a problem. Running out of memory is one of the refusals of the reader and of typing.
#[derive(Clone, Copy, Debug, PartialEq, Eq)]
pub enum FileFault {
    /// They are no file.
    Reading(ReadRefusal),
    /// They are a file with a fault.
    Typing(TypeRefusal),
}
