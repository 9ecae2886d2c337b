// Formulas of the calculus, in negation normal form over linear terms, and what can be done to them: their truth in an
// interpretation, size and depth, shifts and negation. Below them stand the typed formulas, which this crate hands on.
#![tactic(auto)]

mod calculus;
mod copying;
mod laws;
mod measures;
mod negation;
mod purity;
mod reduced;
mod shared;
mod shifting;

pub use calculus::Core;
pub use form_typed::{Relation, Table, TruthRow, Typed, TypedTerm, ValueRow, World};
pub use laws::{depth_law, dual_law, purity_law, shift_law, size_law, stability_law};
pub use measures::{depth, size};
pub use negation::dual;
pub use purity::is_pure;
pub use shared::Shared;
pub use shifting::shift;
