// What a search finds.

use cdcl_fuel::Fault;
use cdcl_steps::Proof;

/// Why a search gave up.
#[derive(Clone, Copy, Debug, PartialEq, Eq)]
pub enum Cause {
    /// The budget is used up.
    Steps,
    /// A number leaves its range.
    Overflow,
    Memory,
    /// Quantifiers are left of which nothing more can be said.
    Quantifiers,
    /// A number names nothing: what cannot happen.
    Broken,
}

impl From<Fault> for Cause {
    fn from(fault: Fault) -> Cause {
        match fault {
            Fault::Steps => Cause::Steps,
            Fault::Overflow => Cause::Overflow,
            Fault::Memory => Cause::Memory,
            Fault::Broken => Cause::Broken,
        }
    }
}

/// What a search finds.
#[derive(Drop)]
pub enum Answer {
    /// The root is true, by this proof.
    Proof(Proof),
    /// The root is false in the model that the advisor knows.
    Model,
    GaveUp(Cause),
}
