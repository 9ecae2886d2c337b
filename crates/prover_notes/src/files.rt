// Files that are looked at once more, after a run.

use job_messages::Unread;
use prover_io::{FileSource, read_all};
use std::alloc::Global;
use std::fs;
use std::io::{self, ErrorKind, Read};
use std::rt::Files;

/// How many bytes of a file are read at most: as many as a proof may have.
const MOST: u64 = 67_108_864;

/// Files by their names, after a run.
pub trait NamedFiles {
    /// Why this name could not be read, as far as it can be told now.
    fn fault(&self, name: &str) -> Unread;

    /// The bytes of the file of this name, where it is one that can be read again.
    fn text(&self, name: &str) -> Option<Vec<u8>>;
}

/// The files of the system, by their paths. What can be read only once, as a pipe or the standard input, is not read again.
#[derive(Drop)]
pub struct SystemFiles<'a, R: Files> {
    alloc: Global,
    rt: &'a R,
}

impl<'a, R: Files> SystemFiles<'a, R> {
    /// The files that `rt` gives.
    pub fn new(alloc: Global, rt: &'a R) -> SystemFiles<'a, R> {
        SystemFiles { alloc, rt }
    }
}

impl<'a, R: Files> NamedFiles for SystemFiles<'a, R> {
    fn fault(&self, name: &str) -> Unread {
        if name == "-" {
            return Unread::Other;
        }
        match first_byte(self.rt, name) {
            Ok(()) => Unread::Other,
            Err(error) => unread(error.kind()),
        }
    }

    fn text(&self, name: &str) -> Option<Vec<u8>> {
        let found = fs::metadata(self.rt, name).ok()?;
        if name == "-" || !found.is_file() {
            return None;
        }
        let mut source = FileSource::new(self.alloc, self.rt);
        read_all(self.alloc, &mut source, name, MOST).ok()
    }
}

/// Reads one byte of a file, or tries to read a folder; nothing else is opened.
fn first_byte<R: Files>(rt: &R, name: &str) -> io::Result<()> {
    let found = fs::metadata(rt, name)?;
    if found.is_file() || found.is_dir() {
        let mut file = fs::open(rt, name)?;
        let mut byte = [0u8; 1];
        file.read(&mut byte)?;
    }
    Ok(())
}

fn unread(kind: ErrorKind) -> Unread {
    match kind {
        ErrorKind::NotFound => Unread::Missing,
        ErrorKind::IsADirectory => Unread::Folder,
        ErrorKind::PermissionDenied => Unread::Forbidden,
        _ => Unread::Other,
    }
}
