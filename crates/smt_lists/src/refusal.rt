// Why a text is not read as a script.

ghost use Rattle.std.specs.Prelude.{◌≡◌};

use std::alloc::AllocError;

/// Why a text is not read as a script, with the offset of the token, or the text's length where it ends too early.
#[derive(Clone, Copy, Debug, PartialEq, Eq)]
pub enum ReadRefusal {
    /// No script goes on with this token.
    Syntax(u64),
    /// This `(` opens the 201st level.
    Deep(u64),
    Memory,
}

impl From<AllocError> for ReadRefusal {
    ghost use Rattle.smt_lists.specs.declared.refusal.ReadRefusal.{ReadRefusal};

    ghost from_gives = { λ _ e. e ≡ ReadRefusal.Memory };

    fn from(_error: AllocError) -> ReadRefusal {
        ReadRefusal::Memory
    }
}
