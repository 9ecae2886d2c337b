// Real files as a source. It tells no bytes, since no clause can say what the system gives.

ghost use Rattle.std.specs.Io.KnownBytes.{ReadConsumes};
ghost use Rattle.std.specs.List.{last_or};
ghost use Rattle.std.specs.Prelude.{◌≡◌, ◌≤◌, ◌&&◌, [], length, map, string_bytes, is_none, is_some, None, IfOk};

use crate::names::add_name;
use crate::source::{BeginFault, Failed, Source};
use sqlite_items::Items;
use std::alloc::Global;
use std::fs;
use std::io::{self, ErrorKind, Read};
use std::rt::Files;

/// The files of the system, by their paths.
#[derive(Drop)]
pub struct FileSource<'a, R: Files> {
    rt: &'a R,
    alloc: Global,
    // The names begun, the last one last.
    names: Items<String>,
    // The file begun, as long as nothing failed.
    file: Option<R::File>,
    faults: u64,
    moved: u64,
}

impl<'a, R: Files> FileSource<'a, R> {
    /// A source of the files that `rt` gives. A call of the system that is interrupted is made again; each other error of
    /// the system is a fault.
    pub fn new(alloc: Global, rt: &'a R) -> FileSource<'a, R>
        ensures faults { ⟦<FileSource<'a, R> as Source>⟧.faults result ≡ 0 }
        ensures idle { ⟦<FileSource<'a, R> as Source>⟧.at result ≡ None }
        ensures unlisted { ⟦<FileSource<'a, R> as Source>⟧.names result ≡ [] }
        ensures unmoved { ⟦<FileSource<'a, R> as Source>⟧.moved result ≡ 0 }
    {
        FileSource {
            rt,
            alloc,
            names: Items::new(alloc),
            file: None,
            faults: 0,
            moved: 0,
        }
    }
}

impl<'a, R: Files> Source for FileSource<'a, R> {
    ghost bytes_of = { λ s name. None };

    ghost left = { λ s. None };

    ghost faults = { λ s. s.faults };

    ghost at = { λ s. last_or None (map string_bytes s.names) };

    ghost broken = { λ s. is_some (last_or None (map string_bytes s.names)) && is_none s.file };

    ghost names = { λ s. map string_bytes s.names };

    ghost moved = { λ s. s.moved };

    fn begin(&mut self, name: &str) -> Result<(), BeginFault> {
        let Ok(()) = add_name(self.alloc, &mut self.names, name) else {
            return Err(BeginFault::Memory);
        };
        let Ok(file) = open(self.rt, name) else {
            self.file = None;
            self.faults = self.faults.saturating_add(1);
            return Err(BeginFault::Failed);
        };
        self.file = Some(file);
        Ok(())
    }

    fn read(&mut self, buffer: &mut [u8]) -> Result<usize, Failed> {
        let Some(file) = &mut self.file else {
            unreachable!()
        };
        let Ok(count) = read_some(file, buffer) else {
            self.file = None;
            self.faults = self.faults.saturating_add(1);
            return Err(Failed);
        };
        self.moved = self.moved.saturating_add(count as u64);
        Ok(count)
    }
}

// Opens a file, again where the call is interrupted.
fn open<R: Files>(rt: &R, name: &str) -> io::Result<R::File> {
    for _ in 0..u64::MAX {
        match fs::open(rt, name) {
            Err(e) if e.kind() == ErrorKind::Interrupted => {}
            answer => return answer,
        }
    }
    Err(io::Error::from(ErrorKind::Interrupted))
}

/// Reads some bytes of a file. A call that is interrupted is made again; each other error of the file is the answer.
pub fn read_some<F: Read>(file: &mut F, buffer: &mut [u8]) -> io::Result<usize>
    ensures bound { IfOk result (λ n. n ≤ length buffer.new) }
    ensures bytes { ReadConsumes (F.remaining file.old) (F.remaining file.new) result buffer.new }
{
    for _ in 0..u64::MAX {
        match file.read(buffer) {
            Err(e) if e.kind() == ErrorKind::Interrupted => {}
            answer => return answer,
        }
    }
    Err(io::Error::from(ErrorKind::Interrupted))
}
