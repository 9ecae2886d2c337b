// A file of the system as a sink. It tells no bytes, since no clause can say what the system takes.

ghost use Rattle.std.specs.Prelude.{◌≡◌, ◌≤◌, length, None, IfOk};

use prover_io::{Failed, Sink};
use std::fs;
use std::io::{self, ErrorKind, Write};
use std::rt::Files;

/// A file of the system by its path. It is made, or emptied, where the first byte comes.
#[derive(Drop)]
pub struct FileSink<'a, R: Files> {
    rt: &'a R,
    path: &'a str,
    file: Option<R::File>,
    faults: u64,
}

impl<'a, R: Files> FileSink<'a, R> {
    /// The file of this path. A call of the system that is interrupted is made again; each other error of the system is a fault,
    /// and so is a piece of which nothing is taken.
    pub fn new(rt: &'a R, path: &'a str) -> FileSink<'a, R>
        ensures { ⟦<FileSink<'a, R> as Sink>⟧.faults result ≡ 0 }
    {
        FileSink {
            rt,
            path,
            file: None,
            faults: 0,
        }
    }
}

impl<'a, R: Files> Sink for FileSink<'a, R> {
    ghost taken = { λ s. None };

    ghost faults = { λ s. s.faults };

    fn put(&mut self, piece: &[u8]) -> Result<usize, Failed> {
        match put_some(self.rt, self.path, &mut self.file, piece) {
            Ok(count) if 0 < count => Ok(count),
            _ => {
                self.faults = self.faults.saturating_add(1);
                Err(Failed)
            }
        }
    }
}

// Writes some bytes of a piece to a file, which is made first if there is none.
fn put_some<R: Files>(
    rt: &R,
    path: &str,
    file: &mut Option<R::File>,
    piece: &[u8],
) -> io::Result<usize>
    ensures { IfOk result (λ n. n ≤ length piece.now) }
{
    if file.is_none() {
        *file = Some(fs::create(rt, path)?);
    }
    match file {
        Some(file) => write_some(file, piece),
        None => Ok(0),
    }
}

// Writes some bytes of a piece, again where the call is interrupted.
fn write_some<W: Write>(file: &mut W, piece: &[u8]) -> io::Result<usize>
    ensures { IfOk result (λ n. n ≤ length piece.now) }
{
    for _ in 0..u64::MAX {
        match file.write(piece) {
            Err(e) if e.kind() == ErrorKind::Interrupted => {}
            answer => return answer,
        }
    }
    Err(io::Error::from(ErrorKind::Interrupted))
}
