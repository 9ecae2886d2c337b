// Proof trees of the sequent calculus with constraints (Rümmer, A constraint sequent calculus for first-order logic with
// linear integer arithmetic, 2008): what a node is, when it gives its constraint, and what that says. They stand apart from
// the search that makes them and from the checker that reads them.
#![tactic(auto)]

mod laws;
mod node;
mod reduced;
mod run;

pub use laws::{names_law, node_law, proof_law, reduced_law, root_law, tight_law, walk_law};
pub use node::{Conclusion, Node, Tree, copy_clauses};
pub use reduced::know_reduced;
pub use run::{Run, Verdict, Why};
