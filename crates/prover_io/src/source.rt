// A source of named bytes, which is read one name after another.

ghost use Rattle.prover_io.specs.Outside.{Begun, Broke, ReadGives, Rose};
ghost use Rattle.std.specs.Prelude.{◌≡◌, ℕ, ◌+◌, ◌-◌, ◌^◌, ◌<◌, ◌≤◌, ◌++◌, Bool, true, false, List, [], ◌∷◌, length, min, Option, Some, IsSome, IfOk, OnOk, OnErr, IsErrOf};

/// A call that the outside did not serve.
#[derive(Clone, Copy, Debug, PartialEq, Eq)]
pub struct Failed;

/// Why a name is not begun.
#[derive(Clone, Copy, Debug, PartialEq, Eq)]
pub enum BeginFault {
    /// The source failed, or does not have the name.
    Failed,
    Memory,
}

/// Named bytes that are read in pieces.
pub trait Source {
    // The bytes that each name has, where the source tells them.
    ghost bytes_of: { Self → List ℕ → Option (List ℕ) };

    // The bytes of the name begun that are still to be read, where the source tells them.
    ghost left: { Self → Option (List ℕ) };

    // How many faults there were, at most 2^64 − 1.
    ghost faults: { Self → ℕ };

    // The name of the last `begin` that answered Ok or Failed.
    ghost at: { Self → Option (List ℕ) };

    // Whether that `begin` or a `read` after it answered Failed.
    ghost broken: { Self → Bool };

    // The names of all begins that answered Ok or Failed, in their order.
    ghost names: { Self → List (List ℕ) };

    // How many bytes the reads moved, at most 2^64 − 1.
    ghost moved: { Self → ℕ };

    /// Begins to read the bytes of a name, from their first on. A begin that fails reads nothing. Where memory runs out
    /// nothing changes.
    fn begin(&mut self, name: &str) -> Result<(), BeginFault>
        ensures begun { OnOk result (Begun name.now (bytes_of self.old name.now) (left self.new) (at self.new) (broken self.new)) }
        ensures failed { IsErrOf result BeginFault.Failed → Broke (Some name.now) (at self.new) (broken self.new) }
        ensures cause { IsErrOf result BeginFault.Failed → Rose (faults self.old) (faults self.new) }
        ensures unread { IsErrOf result BeginFault.Failed → left self.new ≡ left self.old }
        ensures memory { IsErrOf result BeginFault.Memory → self.new ≡ self.old }
        ensures later { faults self.old ≤ faults self.new }
        ensures listed { ¬ (IsErrOf result BeginFault.Memory) → names self.new ≡ names self.old ++ name.now ∷ [] }
        ensures unmoved { moved self.new ≡ moved self.old }
        ensures same { (n : List ℕ) → bytes_of self.new n ≡ bytes_of self.old n };

    /// Moves the next bytes of the name begun to the front of the buffer, and answers how many; 0 is the end. A
    /// call that fails takes nothing, and after it nothing more is read of that name.
    fn read(&mut self, buffer: &mut [u8]) -> Result<usize, Failed>
        requires begun { IsSome (at self.old) }
        requires unbroken { broken self.old ≡ false }
        requires room { 0 < length buffer.old }
        ensures bound { IfOk result (λ n. n ≤ length buffer.new) }
        ensures bytes { IfOk result (λ n. ReadGives (left self.old) (left self.new) n buffer.new) }
        ensures unbroken { OnOk result (broken self.new ≡ false) }
        ensures failed { OnErr result (broken self.new ≡ true) }
        ensures unread { OnErr result (left self.new ≡ left self.old) }
        ensures named { at self.new ≡ at self.old }
        ensures cause { OnErr result (Rose (faults self.old) (faults self.new)) }
        ensures later { faults self.old ≤ faults self.new }
        ensures unlisted { names self.new ≡ names self.old }
        ensures counted { IfOk result (λ n. moved self.new ≡ min (moved self.old + n) (2 ^ 64 - 1)) }
        ensures unmoved { OnErr result (moved self.new ≡ moved self.old) }
        ensures more { moved self.old ≤ moved self.new }
        ensures same { (n : List ℕ) → bytes_of self.new n ≡ bytes_of self.old n };
}
