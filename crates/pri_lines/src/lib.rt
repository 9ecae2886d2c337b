// The lines in which answers print a constraint, the values that satisfy it, and interpolants; and what a constraint with
// values says of the problem whose encoding it covers.
#![tactic(auto)]

mod laws;
mod lines;
mod printing;
mod text_laws;

pub use laws::supports_law;
pub use lines::valued_lines;
pub use printing::{constraint_line, interpolant_line};
pub use text_laws::constraint_text_law;
