// Real files and the standard input as a source. It tells no bytes, since no clause can say what the system gives.

ghost use Rattle.std.specs.List.{last_or};
ghost use Rattle.std.specs.Prelude.{◌≡◌, ◌≤◌, ◌&&◌, ◌++◌, [], ◌∷◌, length, map, string_bytes, is_none, is_some, None, Some, IfOk, OnOk, OnErr};

use prover_io::{BeginFault, Failed, Source, read_some};
use sqlite_items::Items;
use std::alloc::{AllocError, Global};
use std::fs;
use std::io::{self, ErrorKind, Input, Read};
use std::rt::Files;

/// The files of the system, by their paths, and the standard input, by the name `-`.
#[derive(Drop)]
pub struct SystemSource<'a, R: Files + Input> {
    rt: &'a R,
    alloc: Global,
    // The names begun, the last one last.
    names: Items<String>,
    // What was begun, as long as nothing failed.
    stream: Option<Stream<R::File, R::Reader>>,
    faults: u64,
    moved: u64,
}

impl<'a, R: Files + Input> SystemSource<'a, R> {
    /// A source of what `rt` gives. A call of the system that is interrupted is made again; each other error of the system is a
    /// fault.
    pub fn new(alloc: Global, rt: &'a R) -> SystemSource<'a, R>
        ensures faults { ⟦<SystemSource<'a, R> as Source>⟧.faults result ≡ 0 }
        ensures idle { ⟦<SystemSource<'a, R> as Source>⟧.at result ≡ None }
        ensures unlisted { ⟦<SystemSource<'a, R> as Source>⟧.names result ≡ [] }
        ensures unmoved { ⟦<SystemSource<'a, R> as Source>⟧.moved result ≡ 0 }
    {
        SystemSource {
            rt,
            alloc,
            names: Items::new(alloc),
            stream: None,
            faults: 0,
            moved: 0,
        }
    }
}

impl<'a, R: Files + Input> Source for SystemSource<'a, R> {
    ghost bytes_of = { λ s name. None };

    ghost left = { λ s. None };

    ghost faults = { λ s. s.faults };

    ghost at = { λ s. last_or None (map string_bytes s.names) };

    ghost broken = { λ s. is_some (last_or None (map string_bytes s.names)) && is_none s.stream };

    ghost names = { λ s. map string_bytes s.names };

    ghost moved = { λ s. s.moved };

    fn begin(&mut self, name: &str) -> Result<(), BeginFault> {
        let Ok(()) = add_name(self.alloc, &mut self.names, name) else {
            return Err(BeginFault::Memory);
        };
        let Ok(stream) = open(self.rt, name) else {
            self.stream = None;
            self.faults = self.faults.saturating_add(1);
            return Err(BeginFault::Failed);
        };
        self.stream = Some(stream);
        Ok(())
    }

    fn read(&mut self, buffer: &mut [u8]) -> Result<usize, Failed> {
        let Some(stream) = &mut self.stream else {
            unreachable!()
        };
        let Ok(count) = stream.read(buffer) else {
            self.stream = None;
            self.faults = self.faults.saturating_add(1);
            return Err(Failed);
        };
        self.moved = self.moved.saturating_add(count as u64);
        Ok(count)
    }
}

// Adds a name after those that were begun.
#[tactic(auto, using(crate::proofs::Begun::begun))]
fn add_name(alloc: Global, names: &mut Items<String>, name: &str) -> Result<(), AllocError>
    ensures added { OnOk result (map string_bytes names.new ≡ map string_bytes names.old ++ name.now ∷ []) }
    ensures last { OnOk result (last_or None (map string_bytes names.new) ≡ Some name.now) }
    ensures same { OnErr result (names.new ≡ names.old) }
{
    let begun = String::from_str(alloc, name)?;
    names.push(begun)?;
    Ok(())
}

// What is read: a file, or the standard input.
#[derive(Drop)]
enum Stream<F, I> {
    File(F),
    Input(I),
}

impl<F: Read, I: Read> Stream<F, I> {
    fn read(&mut self, buffer: &mut [u8]) -> io::Result<usize>
        ensures { IfOk result (λ n. n ≤ length buffer.new) }
    {
        match self {
            Stream::File(file) => read_some(file, buffer),
            Stream::Input(input) => read_some(input, buffer),
        }
    }
}

// What a name stands for: the standard input, or a file, which is opened.
fn open<R: Files + Input>(rt: &R, name: &str) -> io::Result<Stream<R::File, R::Reader>> {
    if name == "-" {
        return Ok(Stream::Input(rt.reader()));
    }
    let file = open_file(rt, name)?;
    Ok(Stream::File(file))
}

// Opens a file, again where the call is interrupted.
fn open_file<R: Files>(rt: &R, name: &str) -> io::Result<R::File> {
    for _ in 0..u64::MAX {
        match fs::open(rt, name) {
            Err(e) if e.kind() == ErrorKind::Interrupted => {}
            answer => return answer,
        }
    }
    Err(io::Error::from(ErrorKind::Interrupted))
}
