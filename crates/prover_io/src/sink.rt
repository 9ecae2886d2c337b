// A sink takes bytes and keeps their order.

ghost use Rattle.prover_io.specs.Outside.{Adds, Rose};
ghost use Rattle.std.specs.Prelude.{◌≡◌, ℕ, ◌<◌, ◌≤◌, List, length, Option, IfOk, OnErr, OnOk};

use crate::source::Failed;

/// A place that bytes are put to.
pub trait Sink {
    // The bytes taken so far, where the sink tells them.
    ghost taken: { Self → Option (List ℕ) };

    // How many faults there were, at most 2^64 − 1.
    ghost faults: { Self → ℕ };

    /// Takes bytes from the front of the piece, one at least, and answers how many.
    fn put(&mut self, piece: &[u8]) -> Result<usize, Failed>
        requires { 0 < length piece.now }
        ensures some { IfOk result (λ n. 0 < n) }
        ensures bound { IfOk result (λ n. n ≤ length piece.now) }
        ensures bytes { IfOk result (λ n. Adds (taken self.old) (taken self.new) n piece.now) }
        ensures failed { OnErr result (taken self.new ≡ taken self.old) }
        ensures cause { OnErr result (Rose (faults self.old) (faults self.new)) }
        ensures no_fault { OnOk result (faults self.new ≡ faults self.old) }
        ensures later { faults self.old ≤ faults self.new };
}
