// Runs over memory.

use base_watch::Unwatched;
use form_typed::Table;
use prover_io::{MemorySink, MemorySource};
use prover_job::run;
use std::alloc::Global;
use std::process::Abort;
use std::test::Fail;
use test_texts::PROOF;

// A problem, and what is told of it; PROOF is the proof after that.
pub const UNIFIED: &[u8] =
    b"\\existentialConstants { int a; } \\predicates { p(int); } \\problem { p(3) -> p(a) }";

pub const ANSWER: &str = "VALID\nconstraint: a - 3 = 0\nsolution: a = 3\n";

// What is outside of a run: the calls at which source and sink fail, and how many bytes they give and take in one call.
#[derive(Clone, Copy)]
pub struct Outside<'a> {
    pub source_fails: &'a [u64],
    pub source_most: u64,
    pub sink_fails: &'a [u64],
    pub sink_most: u64,
}

// Runs these words over the files `f` and `g`, of which `g` has a proof, and asks for the status and the bytes taken.
pub fn asks(
    rt: &impl Abort,
    alloc: Global,
    words: &[&str],
    f: &[u8],
    outside: &Outside<'_>,
    answer: (u8, &str),
) -> Result<(), Fail> {
    let (status, text) = answer;
    let (ended, taken) = ends(alloc, words, &[("f", f), ("g", PROOF.as_bytes())], outside)?;
    let came = taken.as_slice();
    assert!(rt;
        ended == status && came == text.as_bytes(),
        "at {words:?} for {text}: {ended} {came:?}"
    );
    Ok(())
}

// Runs these words over these files.
fn ends(
    alloc: Global,
    words: &[&str],
    named: &[(&str, &[u8])],
    outside: &Outside<'_>,
) -> Result<(u8, Vec<u8>), Fail> {
    let mut given = Vec::new(alloc);
    for word in words {
        given.push(String::from_str(alloc, word)?)?;
    }
    let source_fails = Vec::from_slice(alloc, outside.source_fails)?;
    let mut source = MemorySource::new(files(alloc, named)?, source_fails).with_most(
        outside.source_most.max(1),
    );
    let sink_fails = Vec::from_slice(alloc, outside.sink_fails)?;
    let mut sink = MemorySink::new(alloc, 1_048_576, outside.sink_most.max(1), sink_fails)?;
    let status = run(
        alloc,
        given.as_slice(),
        &mut source,
        &mut sink,
        &Table::empty(alloc),
        &mut Unwatched,
    );
    Ok((status, Vec::from_slice(alloc, sink.taken())?))
}

// Copies of these files.
fn files(alloc: Global, named: &[(&str, &[u8])]) -> Result<Vec<(String, Vec<u8>)>, Fail> {
    let mut files = Vec::new(alloc);
    for (name, bytes) in named {
        files.push((
            String::from_str(alloc, name)?,
            Vec::from_slice(alloc, bytes)?,
        ))?;
    }
    Ok(files)
}
