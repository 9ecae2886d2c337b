// The bytes that were read of the names begun.

use std::alloc::Global;

/// How many bytes of a name are kept at most: as many as a problem's file may have.
const MOST: usize = 1_048_576;

/// The bytes that were read of each name begun, in their order: of names with more than 1 MiB none, and the others as long as
/// memory was there for them.
#[derive(Drop)]
pub(crate) struct Texts {
    alloc: Global,
    texts: Vec<Text>,
    is_lost: bool,
}

#[derive(Drop)]
struct Text {
    bytes: Vec<u8>,
    is_whole: bool,
}

impl Text {
    fn add(&mut self, bytes: &[u8]) {
        if !self.is_whole {
            return;
        }
        let room = MOST.saturating_sub(self.bytes.len());
        if bytes.len() > room || self.bytes.extend_from_slice(bytes).is_err() {
            self.is_whole = false;
        }
    }
}

impl Texts {
    pub(crate) fn new(alloc: Global) -> Texts {
        Texts {
            alloc,
            texts: Vec::new(alloc),
            is_lost: false,
        }
    }

    /// Begins the text of another name.
    pub(crate) fn begin(&mut self) {
        let text = Text {
            bytes: Vec::new(self.alloc),
            is_whole: true,
        };
        if self.texts.push(text).is_err() {
            self.is_lost = true;
        }
    }

    /// Adds bytes to the text begun last.
    pub(crate) fn add(&mut self, bytes: &[u8]) {
        if let Some(text) = self.texts.last_mut() {
            text.add(bytes);
        }
    }

    /// How many names were begun.
    pub(crate) fn count(&self) -> usize {
        self.texts.len()
    }

    /// The bytes that were read of the name with this number, from 0 on, where they are held.
    pub(crate) fn get(&self, number: usize) -> Option<&[u8]> {
        if self.is_lost {
            return None;
        }
        match self.texts.get(number) {
            Some(text) if text.is_whole => Some(text.bytes.as_slice()),
            _ => None,
        }
    }
}
