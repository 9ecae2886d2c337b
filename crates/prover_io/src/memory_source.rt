// A source over memory, which fails at the calls that it is told to.

ghost use Rattle.std.specs.Option.{option_copied};
ghost use Rattle.std.specs.Prelude.{◌≡◌, ℕ, ◌+◌, ◌-◌, ◌^◌, ◌<◌, ◌≤◌, ◌↔◌, ◌++◌, true, false, List, [], ◌∷◌, length, drop, min, find, bytes_eq, option_map, string_bytes, vec_len, None, Some, IfOk, OnOk, OnErr, IsErr, IsErrOf, IsSome, IsTrue};

use crate::names::add_name;
use crate::source::{BeginFault, Failed, Source};
use sqlite_items::Items;
use std::alloc::{AllocError, Global};

/// A source of the files that it is given, by their names.
#[derive(Drop)]
pub struct MemorySource {
    files: Vec<(String, Vec<u8>)>,
    failing: Vec<u64>,
    most: u64,
    calls: u64,
    faults: u64,
    moved: u64,
    // The names begun, the last one last.
    names: Items<String>,
    content: Vec<u8>,
    position: usize,
    broken: bool,
    ghost some: { 0 < most },
    ghost within: { position ≤ vec_len content },
}

impl MemorySource {
    ghost use Rattle.prover_io.specs.MemorySource.{bytes_of, fails_next, IsFreshSource, Limits};

    /// A source of these files; of two with one name the first counts. It fails at the calls of `begin` and `read` with
    /// the numbers in `failing`, counted from 0, and where a name is begun that it does not have. A read gives as much as
    /// its buffer has room for.
    pub fn new(files: Vec<(String, Vec<u8>)>, failing: Vec<u64>) -> MemorySource
        ensures { IsFreshSource result files.items failing.items }
    {
        let content = Vec::new(*files.allocator());
        let names = Items::new(*files.allocator());
        MemorySource {
            files,
            failing,
            most: u64::MAX,
            calls: 0,
            faults: 0,
            moved: 0,
            names,
            content,
            position: 0,
            broken: false,
        }
    }

    /// The same source, each read of which gives at most `most` bytes. Takes no memory.
    pub fn with_most(self, most: u64) -> MemorySource
        requires { 0 < most }
        ensures { Limits self result most }
    {
        let mut source = self;
        source.most = most;
        source
    }

    // Whether the next call is one of those that fail.
    fn fails_next(&self) -> bool
        ensures { result ≡ fails_next self.now }
    {
        self.failing.contains(&self.calls)
    }

    // Counts a call.
    fn count_call(&mut self)
        ensures { self.new ≡ record self.old { calls = min (self.old.calls + 1) (2 ^ 64 - 1) } }
    {
        self.calls = self.calls.saturating_add(1);
    }

    // Counts a fault, and breaks what was begun.
    fn count_fault(&mut self)
        ensures counts { self.new ≡ record self.old { faults = min (self.old.faults + 1) (2 ^ 64 - 1); broken = true } }
        ensures later { self.old.faults ≤ self.new.faults }
    {
        self.faults = self.faults.saturating_add(1);
        self.broken = true;
    }

    // A copy of the first file of this name, if there is one.
    fn find_content(&self, name: &str) -> Result<Option<Vec<u8>>, AllocError>
        ensures { IfOk result (λ found. option_map (λ bytes. bytes.items) found ≡ bytes_of self.now name.now) }
    {
        match find_file(self.files.as_slice(), name) {
            Some(file) => Ok(Some(Vec::from_slice(*self.files.allocator(), file.1.as_slice())?)),
            None => Ok(None),
        }
    }
}

// The first file of this name.
fn find_file<'a>(files: &'a [(String, Vec<u8>)], name: &str) -> Option<&'a (String, Vec<u8>)>
    ensures { option_copied result ≡ find (λ file. bytes_eq (string_bytes file.0) name.now) files.now }
{
    files.iter().find(|file| file.0.as_str() == name)
}

impl Source for MemorySource {
    ghost use Rattle.prover_io.specs.MemorySource.{begin_fails, bytes_of, fails_next, faults_of, is_broken, most_of, moved_of, name_of, names_of, rest_of, SourceCounts};
    ghost use Rattle.prover_io.specs.Outside.{Begun, Broke, Moves};

    ghost bytes_of = { λ s name. bytes_of s name };

    ghost left = { λ s. Some (rest_of s) };

    ghost faults = { λ s. faults_of s };

    ghost at = { λ s. name_of s };

    ghost broken = { λ s. is_broken s };

    ghost names = { λ s. names_of s };

    ghost moved = { λ s. moved_of s };

    fn begin(&mut self, name: &str) -> Result<(), BeginFault>
        ensures serves { OnOk result (begin_fails self.old name.now ≡ false) }
        ensures fails { IsErrOf result BeginFault.Failed → begin_fails self.old name.now ≡ true }
        ensures memory { IsErrOf result BeginFault.Memory → self.new ≡ self.old }
        ensures begun { OnOk result (Begun name.now (bytes_of self.old name.now) (Some (rest_of self.new)) (name_of self.new) (is_broken self.new)) }
        ensures failed { IsErrOf result BeginFault.Failed → Broke (Some name.now) (name_of self.new) (is_broken self.new) }
        ensures fault { IsErrOf result BeginFault.Failed → faults_of self.new ≡ min (faults_of self.old + 1) (2 ^ 64 - 1) }
        ensures no_fault { OnOk result (faults_of self.new ≡ faults_of self.old) }
        ensures unread { IsErrOf result BeginFault.Failed → rest_of self.new ≡ rest_of self.old }
        ensures later { faults_of self.old ≤ faults_of self.new }
        ensures listed { ¬ (IsErrOf result BeginFault.Memory) → names_of self.new ≡ names_of self.old ++ name.now ∷ [] }
        ensures unmoved { moved_of self.new ≡ moved_of self.old }
        ensures counted { OnOk result (SourceCounts self.old self.new) }
        ensures counted_too { IsErrOf result BeginFault.Failed → SourceCounts self.old self.new }
        ensures same { (n : List ℕ) → bytes_of self.new n ≡ bytes_of self.old n }
    {
        let alloc = *self.files.allocator();
        let Ok(found) = self.find_content(name) else {
            return Err(BeginFault::Memory);
        };
        let Ok(()) = add_name(alloc, &mut self.names, name) else {
            return Err(BeginFault::Memory);
        };
        let fails = self.fails_next();
        self.count_call();
        if fails {
            self.count_fault();
            return Err(BeginFault::Failed);
        }
        let Some(content) = found else {
            self.count_fault();
            return Err(BeginFault::Failed);
        };
        self.content = content;
        self.position = 0;
        self.broken = false;
        Ok(())
    }

    fn read(&mut self, buffer: &mut [u8]) -> Result<usize, Failed>
        requires begun { IsSome (name_of self.old) }
        requires unbroken { is_broken self.old ≡ false }
        requires room { 0 < length buffer.old }
        ensures fails { IsErr result ↔ IsTrue (fails_next self.old) }
        ensures full { IfOk result (λ n. n ≡ min (min (length buffer.old) (most_of self.old)) (length (rest_of self.old))) }
        ensures bytes { IfOk result (λ n. Moves (rest_of self.old) (Some (rest_of self.new)) n buffer.new) }
        ensures unbroken { OnOk result (is_broken self.new ≡ false) }
        ensures failed { OnErr result (is_broken self.new ≡ true) }
        ensures unread { OnErr result (rest_of self.new ≡ rest_of self.old) }
        ensures named { name_of self.new ≡ name_of self.old }
        ensures fault { OnErr result (faults_of self.new ≡ min (faults_of self.old + 1) (2 ^ 64 - 1)) }
        ensures no_fault { OnOk result (faults_of self.new ≡ faults_of self.old) }
        ensures later { faults_of self.old ≤ faults_of self.new }
        ensures unlisted { names_of self.new ≡ names_of self.old }
        ensures moved { IfOk result (λ n. moved_of self.new ≡ min (moved_of self.old + n) (2 ^ 64 - 1)) }
        ensures unmoved { OnErr result (moved_of self.new ≡ moved_of self.old) }
        ensures more { moved_of self.old ≤ moved_of self.new }
        ensures counted { SourceCounts self.old self.new }
        ensures same { (n : List ℕ) → bytes_of self.new n ≡ bytes_of self.old n }
    {
        let fails = self.fails_next();
        self.count_call();
        if fails {
            self.count_fault();
            return Err(Failed);
        }
        let rest = &self.content[self.position..];
        let count = buffer.len().min(self.most as usize).min(rest.len());
        buffer[..count].copy_from_slice(&rest[..count]);
        self.position += count;
        self.moved = self.moved.saturating_add(count as u64);
        Ok(count)
    }
}
