// Elimination of quantifiers (Cooper, Theorem proving in arithmetic without multiplication, 1972; Pugh, The Omega test,
// 1992) as a definition: of one name out of a disjunction of clauses by the rules that come first, of all quantifiers of a
// formula, and by the entries of a log. The laws say that it is exact, and that a log that is accepted is as good. They
// are the contracts of functions with nothing to do; of the code, the disjunctions of atoms alone stand here.
#![tactic(auto)]

mod atoms;
mod knowing;
mod laws;

pub use atoms::{of_literal, of_unequal};
pub use knowing::know_formed;
pub use laws::{
    exact_law, first_rule_law, log_law, name_law, notes_law, replay_law, rule_law,
    satisfaction_law, truth_law,
};
