// Craig interpolants of parts of a problem, where the parts of the first side have no predicates and functions. An interpolant is what
// the first side assumes, without its quantifiers and without the constants that do not occur in what the second side assumes.
#![tactic(auto)]

mod fault;
mod laws;
mod parts;
mod projection;

pub use fault::{Interpolant, InterpolantFault};
pub use laws::{apart_law, occurrence_law, plain_law, size_law};
pub use parts::{between, between_at, between_parts, between_sides, together};
