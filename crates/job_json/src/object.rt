// Members of an object of JSON in the making.

use crate::text::text_of;
use json::Writer;
use linear_term::Memory;
use std::alloc::Global;

/// JSON that grows at its end.
#[derive(Drop)]
pub(crate) struct Object {
    alloc: Global,
    writer: Writer<Global>,
}

impl Object {
    /// The begin of an object.
    pub(crate) fn begin(alloc: Global) -> Result<Object, Memory> {
        let mut writer = Writer::new(Vec::new(alloc));
        writer.begin_object()?;
        Ok(Object { alloc, writer })
    }

    /// What was written.
    pub(crate) fn into_bytes(self) -> Vec<u8> {
        let Object { alloc: _, writer } = self;
        writer.into_inner()
    }

    /// Writes the name of a member.
    pub(crate) fn key(&mut self, name: &str) -> Result<(), Memory> {
        self.writer.key(name)?;
        Ok(())
    }

    /// Writes bytes as the name of a member.
    pub(crate) fn key_of(&mut self, name: &[u8]) -> Result<(), Memory> {
        let text = text_of(self.alloc, name)?;
        self.writer.key(text.as_str())?;
        Ok(())
    }

    /// Writes bytes as a text.
    pub(crate) fn text(&mut self, bytes: &[u8]) -> Result<(), Memory> {
        let text = text_of(self.alloc, bytes)?;
        self.writer.string(text.as_str())?;
        Ok(())
    }

    /// Writes a member whose value is a text.
    pub(crate) fn text_member(&mut self, name: &str, bytes: &[u8]) -> Result<(), Memory> {
        self.key(name)?;
        self.text(bytes)
    }

    /// Writes a member whose value is a text or nothing.
    pub(crate) fn text_or_null(&mut self, name: &str, bytes: Option<&[u8]>) -> Result<(), Memory> {
        self.key(name)?;
        match bytes {
            Some(bytes) => self.text(bytes),
            None => {
                self.writer.null()?;
                Ok(())
            }
        }
    }

    /// Writes a member whose value is a number.
    pub(crate) fn number_member(&mut self, name: &str, number: u64) -> Result<(), Memory> {
        self.key(name)?;
        self.writer.u64(number)?;
        Ok(())
    }

    /// Writes a truth.
    pub(crate) fn truth(&mut self, is_true: bool) -> Result<(), Memory> {
        self.writer.boolean(is_true)?;
        Ok(())
    }

    /// Begins an object.
    pub(crate) fn open(&mut self) -> Result<(), Memory> {
        self.writer.begin_object()?;
        Ok(())
    }

    /// Ends an object.
    pub(crate) fn close(&mut self) -> Result<(), Memory> {
        self.writer.end_object()?;
        Ok(())
    }

    /// Begins a list.
    pub(crate) fn open_list(&mut self) -> Result<(), Memory> {
        self.writer.begin_array()?;
        Ok(())
    }

    /// Ends a list.
    pub(crate) fn close_list(&mut self) -> Result<(), Memory> {
        self.writer.end_array()?;
        Ok(())
    }
}
