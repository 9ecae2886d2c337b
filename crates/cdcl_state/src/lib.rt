// The state of the clause search, and the steps that change it: clauses of closures that are opened, bounds that follow from
// atoms (simplex), cuts and branches where values are not whole, and equations of congruence (Nieuwenhuis, Oliveras and
// Tinelli, Solving SAT and SAT modulo theories: from DPLL to DPLL(T), 2006).
#![tactic(auto)]

mod bounds;
mod conflicts;
mod congruence;
mod cuts;
mod divisions;
mod fractions;
mod knowledge;
mod making;
mod opening;
mod solving;
mod state;
mod values;

pub use knowledge::Knowledge;
pub use state::{Arithmetic, Pending, State};
