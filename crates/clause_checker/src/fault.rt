// Why a check of a clause proof ends without an answer, or with a refusal.

ghost use Rattle.std.specs.Prelude.{◌≡◌};

use linear_term::{Memory, Place, TermFault};
use std::alloc::{AllocError, AllocFailed};

/// What ends a check.
#[derive(Clone, Copy, Debug, PartialEq, Eq)]
pub enum Fault {
    /// The lines are no proof.
    Refused,
    /// The price of the line passes the budget.
    Steps,
    /// A number leaves the range of coefficients: this one.
    Overflow(Place),
    /// There are as many constants as have numbers.
    Room,
    Memory,
}

impl From<Memory> for Fault {
    ghost use Rattle.clause_checker.specs.declared.fault.Fault.TheVariants.{Memory};

    ghost from_gives = { λ _ e. e ≡ Memory };

    fn from(_memory: Memory) -> Fault {
        Fault::Memory
    }
}

impl From<AllocError> for Fault {
    ghost use Rattle.clause_checker.specs.declared.fault.Fault.TheVariants.{Memory};

    ghost from_gives = { λ _ e. e ≡ Memory };

    fn from(_error: AllocError) -> Fault {
        Fault::Memory
    }
}

impl<T: Drop> From<AllocFailed<T>> for Fault {
    ghost use Rattle.clause_checker.specs.declared.fault.Fault.TheVariants.{Memory};

    ghost from_gives = { λ _ e. e ≡ Memory };

    fn from(_failed: AllocFailed<T>) -> Fault {
        Fault::Memory
    }
}

impl From<TermFault> for Fault {
    ghost use Rattle.clause_checker.specs.Answers.{fault_of};

    ghost from_gives = { λ fault e. e ≡ fault_of fault };

    fn from(fault: TermFault) -> Fault {
        match fault {
            TermFault::Overflow(place) => Fault::Overflow(place),
            TermFault::Memory => Fault::Memory,
        }
    }
}
