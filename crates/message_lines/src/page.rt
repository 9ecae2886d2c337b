// Lines of text in the making.

use linear_term::Memory;
use std::alloc::Global;

/// Lines that grow at their end.
#[derive(Drop)]
pub struct Page {
    alloc: Global,
    bytes: Vec<u8>,
}

impl Page {
    /// No line.
    pub fn new(alloc: Global) -> Page {
        Page {
            alloc,
            bytes: Vec::new(alloc),
        }
    }

    /// What allocates its memory.
    pub(crate) fn allocator(&self) -> Global {
        self.alloc
    }

    /// The lines so far.
    pub fn bytes(&self) -> &[u8] {
        self.bytes.as_slice()
    }

    /// The lines.
    pub fn into_bytes(self) -> Vec<u8> {
        let Page { alloc: _, bytes } = self;
        bytes
    }

    /// Puts a text after the others.
    pub fn put(&mut self, text: &[u8]) -> Result<(), Memory> {
        self.bytes.extend_from_slice(text)?;
        Ok(())
    }

    /// Puts a text after the others.
    pub fn put_str(&mut self, text: &str) -> Result<(), Memory> {
        self.put(text.as_bytes())
    }

    /// Puts a number in decimal digits.
    pub fn put_number(&mut self, number: u64) -> Result<(), Memory> {
        let digits = number.to_string(self.alloc)?;
        self.put_str(digits.as_str())
    }

    /// Puts a number in decimal digits, with a comma before each three of them.
    pub fn put_grouped(&mut self, number: u64) -> Result<(), Memory> {
        let digits = number.to_string(self.alloc)?;
        let mut left = digits.len();
        for (i, digit) in digits.as_bytes().iter().enumerate() {
            if i > 0 && left % 3 == 0 {
                self.put(b",")?;
            }
            self.put(&[*digit])?;
            left = left.saturating_sub(1);
        }
        Ok(())
    }

    /// Puts the front of a text, and two dots where it has more than `most` bytes.
    pub fn put_short(&mut self, text: &[u8], most: usize) -> Result<(), Memory> {
        match text.get(..most) {
            Some(front) if text.len() > most => {
                self.put(front)?;
                self.put(b"..")
            }
            _ => self.put(text),
        }
    }
}
