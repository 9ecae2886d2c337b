// Literals over linear terms in normal form, clauses and disjunctive normal forms, and the budget of work on them.
#![tactic(auto)]

mod apart;
mod beside;
pub mod bounds;
mod clause;
mod clauses;
mod compact;
mod conjoined;
mod contrary;
mod covering;
mod dnf;
mod laws;
mod literal;
mod marks;
mod negation;
mod normal_form;
mod order;
mod table;
pub mod weight;

pub use base_budget::{ElimFault, ElimLog, Entry, Purse, Spent, StepFault};
pub use clause::{Clause, copy_literals, normal};
pub use dnf::{Dnf, and, or, or_into};
pub use laws::{
    canonical_law, covers_law, form_law, formed_law, free_law, intervals_law, kept_law,
    negation_law, normal_law, operations_law, range_law,
};
pub use literal::{Literal, Norm};
pub use negation::{literal_clauses, negated_literal, not};
pub use order::{Ordered, sort_once};
