// Clause proofs: a proof that a formula is true in every world, as a sequence of lines, each of which makes constants,
// variables and clauses over them. A proof refutes that the formula is false. Here are the lines, what each of them makes,
// and the law that an accepted proof shows its formula.
#![tactic(auto)]

mod laws;
mod line;

pub use laws::{line_law, proof_law};
pub use line::{Application, Factor, Line, Literal};
