// Terms of SMT-LIB 2.6 over the sorts Int and Bool: what they mean, and the formulas and terms of a problem that they are
// written out to.
#![tactic(auto)]

mod laws;
mod names;
mod operator;
mod term;

pub use laws::{checks_law, value_law, written_out_law};
pub use names::named_operator;
pub use operator::{Operator, Sort};
pub use term::{Binding, Name, Term, Variable};
