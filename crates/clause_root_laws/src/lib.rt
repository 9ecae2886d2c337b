// The root of a clause proof, prepared: its pure quantified subformulas are replaced by what elimination makes of them
// (Cooper, Theorem proving in arithmetic without multiplication, 1972; Pugh, The Omega test, 1992), as far as a number of
// steps goes. Here is what that is, and the law that the prepared formula is true exactly where the formula is.
#![tactic(auto)]

mod laws;

pub use laws::{clausal_law, prepared_law};
