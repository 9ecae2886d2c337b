// Messages: what is said of which file and where, and their lines on standard error.

use crate::page::Page;
use crate::places::{put_mark, spot_at};
use crate::slip::{Slip, put_slip};
use linear_term::Memory;
use std::alloc::Global;

/// How many errors of a file are told at most.
pub const MOST: usize = 10;

/// How grave a message is.
#[derive(Clone, Copy, Debug, PartialEq, Eq)]
pub enum Severity {
    /// Why there is no answer.
    Error,
    /// What an answer may hide.
    Warning,
    /// What goes with an answer.
    Note,
}

impl Severity {
    /// The word for it.
    pub fn word(self) -> &'static str {
        match self {
            Severity::Error => "error",
            Severity::Warning => "warning",
            Severity::Note => "note",
        }
    }
}

/// A place in a file.
#[derive(Clone, Copy, Debug, PartialEq, Eq)]
pub struct Place {
    /// The offset of its byte, from 0 on.
    pub byte: u64,
    /// The number of its line, from 1 on.
    pub line: u64,
    /// The number of its character in the line, from 1 on.
    pub column: u64,
}

/// A message.
#[derive(Drop)]
pub struct Message {
    /// The name of the file, or `princess`.
    pub file: Vec<u8>,
    pub severity: Severity,
    /// What it is about, as `Syntax`, `node 3` or `UNKNOWN: steps`; empty where the sentence says all.
    pub name: Vec<u8>,
    pub place: Option<Place>,
    pub sentence: Vec<u8>,
    /// The line of the place, and a line with a mark below it; empty where no line is shown.
    pub mark: Vec<u8>,
}

/// What a message is about.
#[derive(Clone, Copy)]
pub struct Subject<'a, 'n> {
    pub file: &'a str,
    pub severity: Severity,
    pub name: &'n [u8],
    /// The bytes of the file, and the place in them.
    pub spot: Option<(&'a [u8], usize)>,
}

/// Messages in the making.
#[derive(Drop)]
pub struct Messages {
    alloc: Global,
    list: Vec<Message>,
}

impl Messages {
    /// No message.
    pub fn new(alloc: Global) -> Messages {
        Messages {
            alloc,
            list: Vec::new(alloc),
        }
    }

    /// The messages.
    pub fn into_list(self) -> Vec<Message> {
        let Messages { alloc: _, list } = self;
        list
    }

    /// How many there are.
    pub fn len(&self) -> usize {
        self.list.len()
    }

    /// Adds a message.
    pub fn put(&mut self, subject: &Subject, slip: &Slip) -> Result<(), Memory> {
        self.put_with(subject, slip, b"")
    }

    /// Adds a message with a text after its sentence.
    pub fn put_with(
        &mut self,
        subject: &Subject,
        slip: &Slip,
        behind: &[u8],
    ) -> Result<(), Memory> {
        let mut sentence = Page::new(self.alloc);
        put_slip(&mut sentence, slip)?;
        sentence.put(behind)?;
        let message = Message {
            file: Vec::from_slice(self.alloc, subject.file.as_bytes())?,
            severity: subject.severity,
            name: Vec::from_slice(self.alloc, subject.name)?,
            place: place_of(subject),
            sentence: sentence.into_bytes(),
            mark: mark_of(self.alloc, subject)?,
        };
        self.list.push(message)?;
        Ok(())
    }
}

/// The place of a message.
fn place_of(subject: &Subject) -> Option<Place> {
    let (text, at) = subject.spot?;
    Some(spot_at(text, at))
}

/// The lines that show the place of a message.
fn mark_of(alloc: Global, subject: &Subject) -> Result<Vec<u8>, Memory> {
    let mut page = Page::new(alloc);
    if let Some((text, at)) = subject.spot {
        put_mark(&mut page, text, at)?;
    }
    Ok(page.into_bytes())
}

/// The lines of standard error for these messages, as `FILE:LINE:COLUMN: error: NAME: SENTENCE`, and the line with its mark.
pub fn lines(alloc: Global, messages: &[Message]) -> Result<Vec<u8>, Memory> {
    let mut page = Page::new(alloc);
    for message in messages {
        put_message(&mut page, message)?;
    }
    Ok(page.into_bytes())
}

fn put_message(page: &mut Page, message: &Message) -> Result<(), Memory> {
    page.put(message.file.as_slice())?;
    if let Some(place) = message.place {
        page.put(b":")?;
        page.put_number(place.line)?;
        page.put(b":")?;
        page.put_number(place.column)?;
    }
    page.put(b": ")?;
    page.put_str(message.severity.word())?;
    page.put(b": ")?;
    if !message.name.is_empty() {
        page.put(message.name.as_slice())?;
        page.put(b": ")?;
    }
    page.put(message.sentence.as_slice())?;
    page.put(b"\n")?;
    page.put(message.mark.as_slice())
}
