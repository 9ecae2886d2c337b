// A value put for a name into the clauses of a disjunction: what solving for the best values and checking a proof's values both
// do.
#![tactic(auto)]

mod values;

pub use values::valued_clauses;
