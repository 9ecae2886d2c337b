// Why a log is refused.

ghost use Rattle.elim_check.specs.declared.fault.Stop.TheVariants.{Step};
ghost use Rattle.base_budget.specs.Work.{step_fault_of};
ghost use Rattle.base_budget.specs.declared.fault.StepFault.TheVariants.{Memory};
ghost use Rattle.std.specs.Prelude.{◌≡◌};

use base_budget::StepFault;
use linear_term::{Place, TermFault};
use std::alloc::AllocError;

/// Why a log is refused. The number is that of the first entry that was not done.
#[derive(Clone, Copy, Debug, PartialEq, Eq)]
pub enum LogFault {
    /// This entry is missing, names no rule that applies, or is left over.
    Entry(u64),
    /// A raw number leaves the range of coefficients, at this entry or after the one before it: this number.
    Range(u64, Place),
    /// A charge there passes the budget.
    Cost(u64),
    Memory,
}

/// Why the work of a log stops at the entry that is next.
#[derive(Clone, Copy, Debug, PartialEq, Eq)]
pub(crate) enum Stop {
    /// There is no entry, or its rule does not apply.
    Entry,
    /// A charge or a raw number is refused, or memory runs out.
    Step(StepFault),
}

impl From<StepFault> for Stop {
    ghost from_gives = { λ fault e. e ≡ Step fault };

    fn from(fault: StepFault) -> Stop {
        Stop::Step(fault)
    }
}

impl From<TermFault> for Stop {
    ghost from_gives = { λ fault e. e ≡ Step (step_fault_of fault) };

    fn from(fault: TermFault) -> Stop {
        Stop::Step(StepFault::from(fault))
    }
}

impl From<linear_term::Memory> for Stop {
    ghost from_gives = { λ _ e. e ≡ Step Memory };

    fn from(_memory: linear_term::Memory) -> Stop {
        Stop::Step(StepFault::Memory)
    }
}

impl From<AllocError> for Stop {
    ghost from_gives = { λ _ e. e ≡ Step Memory };

    fn from(_error: AllocError) -> Stop {
        Stop::Step(StepFault::Memory)
    }
}
