// Conflict-driven clause learning: propagation by two watched literals, first unique implication points, minimisation,
// activities, deletion of learnt clauses (Eén and Sörensson, An extensible SAT-solver, 2003), and decisions only where a
// clause needs them. Each clause has its number in a log; a learnt one is told with the numbers of those it follows from.
#![tactic(auto)]

mod analysis;
mod clause;
mod order;
mod sat;
mod theory;
mod trail;
mod upkeep;

pub use clause::{Clause, Watch};
pub use order::Order;
pub use sat::Sat;
pub use theory::{Reason, Theory};
pub use trail::Trail;
