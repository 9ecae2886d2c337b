// A sink that keeps the front of what goes to another one.

ghost use Rattle.std.specs.Prelude.{◌≡◌};

use crate::front::Front;
use prover_io::{Failed, Sink};
use std::alloc::Global;

/// Another sink, and the front of each line that it took.
#[derive(Drop)]
pub struct KeptSink<K> {
    sink: K,
    front: Front,
}

impl<K: Sink> KeptSink<K> {
    /// A sink that puts to this one.
    pub fn new(alloc: Global, sink: K) -> KeptSink<K>
        ensures taken { ⟦<KeptSink<K> as Sink>⟧.taken result ≡ K.taken sink }
        ensures faults { ⟦<KeptSink<K> as Sink>⟧.faults result ≡ K.faults sink }
    {
        KeptSink {
            sink,
            front: Front::new(alloc),
        }
    }

    /// The first 64 bytes of each line that was taken, up to a line `proof:`; where there are many lines or memory runs out,
    /// those of the first lines.
    pub fn front(&self) -> &[u8] {
        self.front.as_slice()
    }

    /// The sink to which it puts.
    pub fn into_sink(self) -> K
        ensures taken { K.taken result ≡ ⟦<KeptSink<K> as Sink>⟧.taken self }
        ensures faults { K.faults result ≡ ⟦<KeptSink<K> as Sink>⟧.faults self }
    {
        let KeptSink { sink, front: _ } = self;
        sink
    }
}

impl<K: Sink> Sink for KeptSink<K> {
    ghost taken = { λ s. K.taken s.sink };

    ghost faults = { λ s. K.faults s.sink };

    fn put(&mut self, piece: &[u8]) -> Result<usize, Failed> {
        match self.sink.put(piece) {
            Ok(count) => {
                self.front.take(piece.get(..count).unwrap_or(&[]));
                Ok(count)
            }
            Err(Failed) => Err(Failed),
        }
    }
}
