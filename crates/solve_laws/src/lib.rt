// The best solution of a disjunction of clauses, name by name, as a definition: a value is nearest to 0 of the candidates that
// the clauses leave, and stands for its name before the next one is chosen. The laws say in the subject's own words what comes
// out, and where its numbers stay in the range of coefficients.
#![tactic(auto)]

mod laws;
mod range;

pub use laws::{candidates_law, nearer_law, notes_law, solutions_law};
pub use range::range_law;
