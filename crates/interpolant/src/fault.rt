// What a call for an interpolant answers.

ghost use Rattle.std.specs.Prelude.{◌≡◌};
ghost use Rattle.base_budget.specs.declared.fault.ElimFault.TheVariants.{Memory};
ghost use Rattle.interpolant.specs.declared.fault.InterpolantFault.TheVariants.{Elim, Encode};

use base_budget::ElimFault;
use clause_set::Dnf;
use function_encoding::EncodeRefusal;
use std::alloc::AllocError;

/// What stands between two sets of parts.
#[derive(Drop)]
pub struct Interpolant {
    /// Over the constants of the problem.
    pub formula: Dnf,
}

/// Why there is no interpolant.
#[derive(Debug, Drop)]
pub enum InterpolantFault {
    /// An elimination was refused; the log is that of this one.
    Elim(ElimFault),
    /// What the first set assumes was not encoded.
    Encode(EncodeRefusal),
}

impl From<ElimFault> for InterpolantFault {
    ghost from_gives = { λ fault e. e ≡ Elim fault };

    fn from(fault: ElimFault) -> InterpolantFault {
        InterpolantFault::Elim(fault)
    }
}

impl From<EncodeRefusal> for InterpolantFault {
    ghost from_gives = { λ refusal e. e ≡ Encode refusal };

    fn from(refusal: EncodeRefusal) -> InterpolantFault {
        InterpolantFault::Encode(refusal)
    }
}

impl From<AllocError> for InterpolantFault {
    ghost from_gives = { λ _ e. e ≡ Elim Memory };

    fn from(_error: AllocError) -> InterpolantFault {
        InterpolantFault::Elim(ElimFault::Memory)
    }
}
