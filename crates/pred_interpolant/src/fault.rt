// The formula between two sides of a cut, and why there is none.

ghost use Rattle.std.specs.Prelude.{◌≡◌};
ghost use Rattle.pred_interpolant.specs.Made.{uninterpolated, unencoded};
ghost use Rattle.pred_interpolant.specs.declared.fault.MiddleFault.TheVariants.{Memory};

use base_budget::ElimFault;
use clause_set::Dnf;
use form_typed::Typed;
use function_encoding::{EncodeRefusal, Encoded};
use interpolant::InterpolantFault;
use linear_term::Place;
use std::alloc::{AllocError, AllocFailed};

/// What stands between two sides of a cut.
#[derive(Drop)]
pub enum MiddleFormula {
    /// Where the first side has no application: a normal form over the constants of the problem.
    Arithmetic(Dnf),
    /// Else: a side of the cut, or its negation, under quantifiers.
    General(Typed),
}

/// A formula between two sides, with the encoding of what says so.
#[derive(Drop)]
pub struct Obligations {
    pub formula: MiddleFormula,
    /// That it follows from the first side.
    pub below: Encoded,
    /// That it contradicts the second.
    pub above: Encoded,
}

/// Why nothing is known to stand between two sides.
#[derive(Clone, Copy, Debug, PartialEq, Eq)]
pub enum MiddleFault {
    /// Each side has a predicate or a function that the other has not.
    Symbols,
    /// The budget ends.
    Steps,
    /// A number leaves the range of coefficients: this one.
    Overflow(Place),
    /// A branch of a proof would have more than 2,000 nodes.
    Branch,
    /// An obligation has an encoding of more than 1,000,000 nodes or a depth above 2,000.
    Large,
    Memory,
}

impl From<InterpolantFault> for MiddleFault {
    ghost from_gives = { λ x e. e ≡ uninterpolated x };

    fn from(fault: InterpolantFault) -> MiddleFault {
        match fault {
            InterpolantFault::Elim(ElimFault::Steps(_)) => MiddleFault::Steps,
            InterpolantFault::Elim(ElimFault::Overflow(_, place)) => MiddleFault::Overflow(place),
            InterpolantFault::Elim(ElimFault::Memory) => MiddleFault::Memory,
            InterpolantFault::Encode(refusal) => MiddleFault::from(refusal),
        }
    }
}

impl From<EncodeRefusal> for MiddleFault {
    ghost from_gives = { λ r e. e ≡ unencoded r };

    fn from(refusal: EncodeRefusal) -> MiddleFault {
        match refusal {
            EncodeRefusal::Large => MiddleFault::Large,
            EncodeRefusal::Overflow(place) => MiddleFault::Overflow(place),
            EncodeRefusal::Memory => MiddleFault::Memory,
        }
    }
}

impl From<linear_term::Memory> for MiddleFault {
    ghost from_gives = { λ _ e. e ≡ Memory };

    fn from(_memory: linear_term::Memory) -> MiddleFault {
        MiddleFault::Memory
    }
}

impl From<AllocError> for MiddleFault {
    ghost from_gives = { λ _ e. e ≡ Memory };

    fn from(_error: AllocError) -> MiddleFault {
        MiddleFault::Memory
    }
}

impl<T: Drop> From<AllocFailed<T>> for MiddleFault {
    ghost from_gives = { λ _ e. e ≡ Memory };

    fn from(_failed: AllocFailed<T>) -> MiddleFault {
        MiddleFault::Memory
    }
}
