// Why a formula is not judged.

use base_budget::{ElimFault, Spent};
use linear_term::{Memory, TermFault};
use std::alloc::{AllocError, AllocFailed};

/// What cuts a judgement.
#[derive(Clone, Copy, Debug, PartialEq, Eq)]
pub enum Fault {
    /// The steps are spent.
    Steps,
    /// A number leaves the range of coefficients.
    Overflow,
    /// The expansion would have too many nodes or names.
    Room,
    Memory,
}

impl From<Memory> for Fault {
    fn from(_memory: Memory) -> Fault {
        Fault::Memory
    }
}

impl From<AllocError> for Fault {
    fn from(_error: AllocError) -> Fault {
        Fault::Memory
    }
}

impl<T: Drop> From<AllocFailed<T>> for Fault {
    fn from(_failed: AllocFailed<T>) -> Fault {
        Fault::Memory
    }
}

impl From<TermFault> for Fault {
    fn from(fault: TermFault) -> Fault {
        match fault {
            TermFault::Overflow(_) => Fault::Overflow,
            TermFault::Memory => Fault::Memory,
        }
    }
}

impl From<Spent> for Fault {
    fn from(_spent: Spent) -> Fault {
        Fault::Steps
    }
}

impl From<ElimFault> for Fault {
    fn from(fault: ElimFault) -> Fault {
        match fault {
            ElimFault::Steps(_) => Fault::Steps,
            ElimFault::Overflow(_, _) => Fault::Overflow,
            ElimFault::Memory => Fault::Memory,
        }
    }
}
