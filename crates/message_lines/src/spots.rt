// Messages about a refusal: where it is, and what is wrong there.

use crate::answers::Refusal;
use crate::messages::{Messages, Severity, Subject};
use crate::page::Page;
use crate::slip::Slip;
use linear_term::Memory;
use std::alloc::Global;

/// A place in a file.
#[derive(Clone, Copy)]
pub struct Spot<'a> {
    /// The name of the file.
    pub name: &'a str,
    pub text: &'a [u8],
    pub at: usize,
}

impl<'a> Spot<'a> {
    /// What a message of this name is about here.
    pub fn subject<'n>(&self, severity: Severity, name: &'n [u8]) -> Subject<'a, 'n> {
        Subject {
            file: self.name,
            severity,
            name,
            spot: Some((self.text, self.at)),
        }
    }
}

/// Puts an error at a place, by the name of the refusal.
pub fn put_refused(
    messages: &mut Messages,
    spot: &Spot,
    name: &[u8],
    slip: &Slip,
) -> Result<(), Memory> {
    messages.put(&spot.subject(Severity::Error, name), slip)
}

/// The name of a refusal with its number, as `node 3`.
pub fn numbered(alloc: Global, refusal: &Refusal) -> Result<Page, Memory> {
    let mut name = Page::new(alloc);
    name.put(refusal.name)?;
    if let Some(number) = refusal.place {
        name.put(b" ")?;
        name.put_number(number)?;
    }
    Ok(name)
}

/// Puts a message without a place.
pub fn put_placeless(
    messages: &mut Messages,
    file: &str,
    severity: Severity,
    name: &[u8],
    slip: &Slip,
) -> Result<(), Memory> {
    let subject = Subject {
        file,
        severity,
        name,
        spot: None,
    };
    messages.put(&subject, slip)
}
