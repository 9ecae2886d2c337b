// What a call that encodes answers.

ghost use Rattle.std.specs.Prelude.{◌≡◌};
ghost use Rattle.function_encoding.specs.declared.answer.EncodeRefusal.TheVariants.{Memory};
ghost use Rattle.function_encoding.specs.Refusals.{refusal_of};

use formula::Core;
use linear_term::{Place, TermFault};
use std::alloc::{AllocError, AllocFailed};

/// An encoded problem.
#[derive(Drop)]
pub struct Encoded {
    /// Over the existential constants.
    pub root: Core,
    /// How many existential constants there are.
    pub constants: u32,
    /// Whether root has neither a predicate nor a function.
    pub pure: bool,
}

/// Why there is no encoding.
#[derive(Clone, Copy, Debug, PartialEq, Eq)]
pub enum EncodeRefusal {
    /// The encoded formula would have more than 1,000,000 nodes or a depth above 2,000.
    Large,
    /// A number leaves the range of coefficients: this one.
    Overflow(Place),
    Memory,
}

impl From<TermFault> for EncodeRefusal {
    ghost from_gives = { λ fault e. e ≡ refusal_of fault };

    fn from(fault: TermFault) -> EncodeRefusal {
        match fault {
            TermFault::Overflow(place) => EncodeRefusal::Overflow(place),
            TermFault::Memory => EncodeRefusal::Memory,
        }
    }
}

impl From<linear_term::Memory> for EncodeRefusal {
    ghost from_gives = { λ _ e. e ≡ Memory };

    fn from(_memory: linear_term::Memory) -> EncodeRefusal {
        EncodeRefusal::Memory
    }
}

impl From<AllocError> for EncodeRefusal {
    ghost from_gives = { λ _ e. e ≡ Memory };

    fn from(_error: AllocError) -> EncodeRefusal {
        EncodeRefusal::Memory
    }
}

impl<T: Drop> From<AllocFailed<T>> for EncodeRefusal {
    ghost from_gives = { λ _ e. e ≡ Memory };

    fn from(_failed: AllocFailed<T>) -> EncodeRefusal {
        EncodeRefusal::Memory
    }
}
