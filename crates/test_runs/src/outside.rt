// What no clause says of sources and sinks: that the calls succeed, and what the system gives and takes.

use prover_io::{
    Failed, FileSource, MemorySink, MemorySource, OutSink, ReadFault, Sink, Source, read_all,
    read_some,
};
use std::alloc::Global;
use std::io::{self, ErrorKind, Read};
use std::test::Fail;

// A reader at its end, whose next calls are interrupted.
#[derive(Drop)]
struct Interrupted {
    calls: u8,
}

impl Read for Interrupted {
    fn read(&mut self, _buf: &mut [u8]) -> io::Result<usize> {
        if self.calls == 0 {
            return Ok(0);
        }
        self.calls -= 1;
        Err(io::Error::from(ErrorKind::Interrupted))
    }
}

fn source(alloc: Global, failing: &[u64]) -> Result<MemorySource, Fail> {
    let mut files = Vec::new(alloc);
    files.push((
        String::from_str(alloc, "f")?,
        Vec::from_slice(alloc, b"hello")?,
    ))?;
    Ok(MemorySource::new(files, Vec::from_slice(alloc, failing)?))
}

#[test]
fn reads_up_to_the_limit(rt: HostRuntime) -> Result<(), Fail> {
    let mut files = source(rt.alloc(), &[])?;
    assert_eq!(rt;
        read_all(rt.alloc(), &mut files, "f", 4),
        Err(ReadFault::Long)
    );
    let whole = read_all(rt.alloc(), &mut files, "f", 5)?;
    assert_eq!(rt; whole.as_slice(), b"hello".as_slice());
    assert_eq!(rt;
        read_all(rt.alloc(), &mut files, "g", 5),
        Err(ReadFault::Failed)
    );
    Ok(())
}

#[test]
fn fails_at_the_calls_that_it_is_told(rt: HostRuntime) -> Result<(), Fail> {
    for (failing, fails) in [(0, true), (1, true), (2, true), (3, false)] {
        let mut files = source(rt.alloc(), &[failing])?;
        let answer = read_all(rt.alloc(), &mut files, "f", 5);
        assert_eq!(rt; answer.is_err(), fails, "at call {failing}");
        let again = read_all(rt.alloc(), &mut files, "f", 5);
        assert_eq!(rt; again.is_err(), !fails, "after call {failing}");
    }
    Ok(())
}

#[test]
fn gives_pieces(rt: HostRuntime) -> Result<(), Fail> {
    for (failing, fails) in [(3, true), (4, true), (5, false)] {
        let mut files = source(rt.alloc(), &[failing])?.with_most(2);
        let answer = read_all(rt.alloc(), &mut files, "f", 5);
        assert_eq!(rt; answer.is_err(), fails, "at call {failing}");
    }
    let mut files = source(rt.alloc(), &[])?.with_most(2);
    let whole = read_all(rt.alloc(), &mut files, "f", 5)?;
    assert_eq!(rt; whole.as_slice(), b"hello".as_slice());
    Ok(())
}

#[test]
fn takes_pieces(rt: HostRuntime) -> Result<(), Fail> {
    let failing = Vec::from_slice(rt.alloc(), &[2])?;
    let mut sink = MemorySink::new(rt.alloc(), 7, 3, failing)?;
    for (piece, count) in [
        ("hello", Ok(3)),
        ("l", Ok(1)),
        ("o", Err(Failed)),
        ("old", Ok(3)),
        ("s", Err(Failed)),
    ] {
        assert_eq!(rt; sink.put(piece.as_bytes()), count, "at {piece}");
    }
    assert_eq!(rt; sink.taken(), b"hellold".as_slice());
    Ok(())
}

#[test]
fn reads_what_the_system_gives(rt: HostRuntime) -> Result<(), Fail> {
    let mut files = FileSource::new(rt.alloc(), &rt);
    files.begin("/dev/zero")?;
    let mut buffer = [1u8; 4];
    assert_eq!(rt; files.read(&mut buffer), Ok(4));
    assert_eq!(rt; buffer, [0u8; 4]);
    for (name, most, answer) in [
        ("/dev/null", 0, Ok(0)),
        ("/dev/zero", 99_999, Err(ReadFault::Long)),
        ("/dev/no such file", 9, Err(ReadFault::Failed)),
        ("/dev", 9, Err(ReadFault::Failed)),
    ] {
        let len = read_all(rt.alloc(), &mut files, name, most).map(|bytes| bytes.len());
        assert_eq!(rt; len, answer, "of {name}");
    }
    Ok(())
}

#[test]
fn prints(rt: HostRuntime) -> Result<(), Fail> {
    let mut sink = OutSink::new(&rt);
    assert_eq!(rt; sink.put(b"hello"), Ok(5));
    Ok(())
}

#[test]
fn goes_on_after_interrupted_calls(rt: HostRuntime) -> Result<(), Fail> {
    let mut reader = Interrupted { calls: 3 };
    let mut buffer = [0u8; 4];
    let count = read_some(&mut reader, &mut buffer)?;
    assert_eq!(rt; (count, reader.calls), (0, 0));
    Ok(())
}
