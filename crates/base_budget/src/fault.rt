// Why a call that is charged is refused, with and without a log of what it did before.

ghost use Rattle.base_budget.specs.declared.fault.StepFault.TheVariants.{Steps, Overflow, Memory};
ghost use Rattle.base_budget.specs.Work.{step_fault_of};
ghost use Rattle.std.specs.Prelude.{◌≡◌};

use super::log::ElimLog;
use super::purse::Spent;
use linear_term::{Place, TermFault};
use std::alloc::{AllocError, AllocFailed};

/// Why a charged call is refused.
#[derive(Clone, Copy, Debug, PartialEq, Eq)]
pub enum StepFault {
    /// A charge passes the budget.
    Steps,
    /// A raw number leaves the range of coefficients: this one.
    Overflow(Place),
    Memory,
}

/// Why an elimination is refused, with the entries of what was done before.
#[derive(Debug, Drop)]
pub enum ElimFault {
    /// A charge passes the budget.
    Steps(ElimLog),
    /// A raw number leaves the range of coefficients: this one.
    Overflow(ElimLog, Place),
    Memory,
}

impl From<Spent> for StepFault {
    ghost from_gives = { λ _ e. e ≡ Steps };

    fn from(_spent: Spent) -> StepFault {
        StepFault::Steps
    }
}

impl From<linear_term::Memory> for StepFault {
    ghost from_gives = { λ _ e. e ≡ Memory };

    fn from(_memory: linear_term::Memory) -> StepFault {
        StepFault::Memory
    }
}

impl From<AllocError> for StepFault {
    ghost from_gives = { λ _ e. e ≡ Memory };

    fn from(_error: AllocError) -> StepFault {
        StepFault::Memory
    }
}

impl<T: Drop> From<AllocFailed<T>> for StepFault {
    ghost from_gives = { λ _ e. e ≡ Memory };

    fn from(_failed: AllocFailed<T>) -> StepFault {
        StepFault::Memory
    }
}

impl From<TermFault> for StepFault {
    ghost from_gives = { λ fault e. e ≡ step_fault_of fault };

    fn from(fault: TermFault) -> StepFault {
        match fault {
            TermFault::Overflow(place) => StepFault::Overflow(place),
            TermFault::Memory => StepFault::Memory,
        }
    }
}
