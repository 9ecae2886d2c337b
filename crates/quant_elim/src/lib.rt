// Elimination of quantifiers, performed: of one name out of a disjunction of clauses by the rules that come first, and
// of all quantifiers of a formula (Cooper 1972; Pugh 1992), with the log of the rules.
#![tactic(auto)]

mod atoms;
mod choice;
mod knowing;
mod rows;
mod taking;
mod wholes;

pub use atoms::atom;
pub use taking::{exists_name, forall_last, name_out};
pub use wholes::eliminate;
