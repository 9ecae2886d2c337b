// The front of each line of an answer.

use std::alloc::Global;

/// How many bytes of a line are kept, and how many of all lines.
const LINE: usize = 64;

const LINES: usize = 1_048_576;

/// The front of each line of an answer, up to a line `proof:`, as long as there is room.
#[derive(Drop)]
pub(crate) struct Front {
    bytes: Vec<u8>,
    // The line in progress: how many bytes of it came, and whether they are so far those of `proof:`.
    column: usize,
    is_over: bool,
}

impl Front {
    pub(crate) fn new(alloc: Global) -> Front {
        Front {
            bytes: Vec::new(alloc),
            column: 0,
            is_over: false,
        }
    }

    /// Takes more bytes of the answer.
    pub(crate) fn take(&mut self, bytes: &[u8]) {
        for byte in bytes {
            if self.is_over {
                return;
            }
            self.take_byte(*byte);
        }
    }

    fn take_byte(&mut self, byte: u8) {
        if byte != b'\n' {
            self.column = self.column.saturating_add(1);
            if self.column > LINE {
                return;
            }
        } else {
            self.column = 0;
        }
        if self.bytes.len() >= LINES || self.bytes.push(byte).is_err() {
            self.is_over = true;
        } else if byte == b'\n' && self.bytes.ends_with(b"\nproof:\n") {
            self.is_over = true;
        }
    }

    /// What was kept.
    pub(crate) fn as_slice(&self) -> &[u8] {
        self.bytes.as_slice()
    }
}
