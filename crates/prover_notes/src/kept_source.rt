// A source that keeps what is read of another one.

ghost use Rattle.std.specs.Prelude.{◌≡◌, ℕ, List};

use crate::texts::Texts;
use prover_io::{BeginFault, Failed, Source};
use std::alloc::Global;

/// Another source, and the bytes that were read of it. Where memory runs out for these, they are lost, and the source goes on.
/// Of a name with more than 1 MiB none are kept.
#[derive(Drop)]
pub struct KeptSource<S> {
    source: S,
    texts: Texts,
}

impl<S: Source> KeptSource<S> {
    /// A source that reads from this one.
    pub fn new(alloc: Global, source: S) -> KeptSource<S>
        ensures told { (name : List ℕ) → ⟦<KeptSource<S> as Source>⟧.bytes_of result name ≡ S.bytes_of source name }
        ensures faults { ⟦<KeptSource<S> as Source>⟧.faults result ≡ S.faults source }
        ensures at { ⟦<KeptSource<S> as Source>⟧.at result ≡ S.at source }
        ensures names { ⟦<KeptSource<S> as Source>⟧.names result ≡ S.names source }
        ensures moved { ⟦<KeptSource<S> as Source>⟧.moved result ≡ S.moved source }
    {
        KeptSource {
            source,
            texts: Texts::new(alloc),
        }
    }

    /// How many names were begun.
    pub fn begins(&self) -> usize {
        self.texts.count()
    }

    /// The bytes that were read of the name that was begun with this number, from 0 on, where they are held.
    pub fn text(&self, number: usize) -> Option<&[u8]> {
        self.texts.get(number)
    }
}

impl<S: Source> Source for KeptSource<S> {
    ghost bytes_of = { λ s name. S.bytes_of s.source name };

    ghost left = { λ s. S.left s.source };

    ghost faults = { λ s. S.faults s.source };

    ghost at = { λ s. S.at s.source };

    ghost broken = { λ s. S.broken s.source };

    ghost names = { λ s. S.names s.source };

    ghost moved = { λ s. S.moved s.source };

    fn begin(&mut self, name: &str) -> Result<(), BeginFault> {
        match self.source.begin(name) {
            Ok(()) => {
                self.texts.begin();
                Ok(())
            }
            Err(BeginFault::Failed) => {
                self.texts.begin();
                Err(BeginFault::Failed)
            }
            Err(BeginFault::Memory) => Err(BeginFault::Memory),
        }
    }

    fn read(&mut self, buffer: &mut [u8]) -> Result<usize, Failed> {
        match self.source.read(buffer) {
            Ok(count) => {
                self.texts.add(buffer.get(..count).unwrap_or(&[]));
                Ok(count)
            }
            Err(Failed) => Err(Failed),
        }
    }
}
