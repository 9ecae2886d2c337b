// A sink over memory, which fails at the calls that it is told to.

ghost use Rattle.std.specs.Prelude.{◌≡◌, ℕ, ◌+◌, ◌-◌, ◌^◌, ◌<◌, ◌≤◌, ◌↔◌, List, [], ◌++◌, length, take, min, Some, vec_len, vec_capacity, IfOk, OnOk, OnErr, IsErr, IsTrue};

use crate::sink::Sink;
use crate::source::Failed;
use std::alloc::{AllocError, Global};

/// A sink that keeps what it takes, up to a fixed room.
#[derive(Drop)]
pub struct MemorySink {
    bytes: Vec<u8>,
    room: usize,
    most: u64,
    failing: Vec<u64>,
    calls: u64,
    faults: u64,
    ghost some: { 0 < most },
    ghost within: { vec_len bytes ≤ room },
    ghost kept: { room ≤ vec_capacity bytes },
}

impl MemorySink {
    ghost use Rattle.prover_io.specs.MemorySink.{bytes_of, IsFreshSink};

    /// A sink with the memory for `room` bytes, which takes at most `most` bytes a call. It fails at the calls with the
    /// numbers in `failing`, counted from 0, and where no room is left.
    pub fn new(
        alloc: Global,
        room: usize,
        most: u64,
        failing: Vec<u64>,
    ) -> Result<MemorySink, AllocError>
        requires { 0 < most }
        ensures { IfOk result (λ sink. IsFreshSink sink room most failing.items) }
    {
        Ok(MemorySink {
            bytes: Vec::with_capacity(alloc, room)?,
            room,
            most,
            failing,
            calls: 0,
            faults: 0,
        })
    }

    /// The bytes taken so far.
    pub fn taken(&self) -> &[u8]
        ensures { result.now ≡ bytes_of self.now }
    {
        self.bytes.as_slice()
    }
}

impl Sink for MemorySink {
    ghost use Rattle.prover_io.specs.MemorySink.{bytes_of, fails_next, faults_of, most_of, space_of, SinkCounts};

    ghost taken = { λ s. Some (bytes_of s) };

    ghost faults = { λ s. faults_of s };

    // Takes as much of the piece as a call may and as there is room for.
    fn put(&mut self, piece: &[u8]) -> Result<usize, Failed>
        requires { 0 < length piece.now }
        ensures fails { IsErr result ↔ IsTrue (fails_next self.old) }
        ensures count { IfOk result (λ n. n ≡ min (length piece.now) (min (most_of self.old) (space_of self.old))) }
        ensures some { IfOk result (λ n. 0 < n) }
        ensures bytes { IfOk result (λ n. bytes_of self.new ≡ bytes_of self.old ++ take n piece.now) }
        ensures failed { OnErr result (bytes_of self.new ≡ bytes_of self.old) }
        ensures fault { OnErr result (faults_of self.new ≡ min (faults_of self.old + 1) (2 ^ 64 - 1)) }
        ensures no_fault { OnOk result (faults_of self.new ≡ faults_of self.old) }
        ensures later { faults_of self.old ≤ faults_of self.new }
        ensures counted { SinkCounts self.old self.new }
    {
        let fails = self.failing.contains(&self.calls) || self.bytes.len() == self.room;
        self.calls = self.calls.saturating_add(1);
        if fails {
            self.faults = self.faults.saturating_add(1);
            return Err(Failed);
        }
        let space = self.room - self.bytes.len();
        let count = piece.len().min(self.most as usize).min(space);
        self.bytes.extend_from_slice(&piece[..count]).unwrap();
        Ok(count)
    }
}
