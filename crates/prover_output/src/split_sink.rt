// A sink that parts an answer from the proof after it.

ghost use Rattle.std.specs.Prelude.{◌≡◌, None};

use prover_io::{Failed, Sink};

/// The line before a proof.
const LINE: &[u8] = b"proof:\n";

/// A sink for an answer, and perhaps one for what comes after its line `proof:`; then that line goes to neither.
#[derive(Drop)]
pub struct SplitSink<K, P> {
    answer: K,
    proof: Option<P>,
    // Whether the next byte begins a line of the answer, and whether the line `proof:` came.
    begins_line: bool,
    is_behind: bool,
    faults: u64,
}

impl<K: Sink, P: Sink> SplitSink<K, P> {
    /// A sink that puts an answer to one sink and the proof to another one, or all to the first.
    pub fn new(answer: K, proof: Option<P>) -> SplitSink<K, P>
        ensures { ⟦<SplitSink<K, P> as Sink>⟧.faults result ≡ 0 }
    {
        SplitSink {
            answer,
            proof,
            begins_line: true,
            is_behind: false,
            faults: 0,
        }
    }
}

impl<K: Sink, P: Sink + Drop> SplitSink<K, P> {
    /// The sink of the answer.
    pub fn into_answer(self) -> K {
        let SplitSink { answer, .. } = self;
        answer
    }
}

impl<K: Sink, P: Sink> Sink for SplitSink<K, P> {
    ghost taken = { λ s. None };

    ghost faults = { λ s. s.faults };

    fn put(&mut self, piece: &[u8]) -> Result<usize, Failed> {
        let put = match &mut self.proof {
            Some(proof) if self.is_behind => proof.put(piece),
            Some(_) => match line_in(piece, self.begins_line) {
                Some(0) => {
                    self.is_behind = true;
                    Ok(LINE.len())
                }
                found => {
                    let count = found.unwrap_or(piece.len());
                    let front = piece.get(..count).unwrap_or(piece);
                    self.answer.put(front)
                }
            },
            None => self.answer.put(piece),
        };
        match put {
            Ok(count) => {
                let count = count.min(piece.len());
                self.begins_line = ends_line(piece, count);
                Ok(count)
            }
            Err(Failed) => {
                self.faults = self.faults.saturating_add(1);
                Err(Failed)
            }
        }
    }
}

// Whether the first n bytes of a piece end with a line feed.
fn ends_line(piece: &[u8], n: usize) -> bool {
    match piece.get(..n) {
        Some(front) => front.ends_with(b"\n"),
        None => false,
    }
}

// Where the line `proof:` begins in a piece, if it is there. A line may begin with the first byte or not.
fn line_in(piece: &[u8], begins_line: bool) -> Option<usize> {
    let mut begins = begins_line;
    for (i, byte) in piece.iter().enumerate() {
        if begins && piece.get(i..).unwrap_or(&[]).starts_with(LINE) {
            return Some(i);
        }
        begins = *byte == b'\n';
    }
    None
}
