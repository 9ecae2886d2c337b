// What stands beside the clauses: why literals follow from it, and the log of what is learnt.

use cdcl_forms::Lit;
use cdcl_fuel::Fault;

/// Why a literal is true.
#[derive(Clone, Copy)]
pub enum Reason {
    Decided,
    Clause(u32),
    /// By another bound of the same sum.
    Bound(Lit),
    /// An equation whose sum has both its bounds there: the lower and the upper one.
    Fixed(Lit, Lit),
}

pub trait Theory {
    /// The number in the log of the clause that says that a literal follows from the bounds of its reason.
    fn explained(&mut self, l: Lit, why: Reason) -> Result<u32, Fault>;

    /// The number in the log of a clause that follows by unit propagation along these.
    fn learnt(&mut self, lits: &[Lit], hints: &[u32]) -> Result<u32, Fault>;

    /// Levels above this one are given up.
    fn backtrack(&mut self, level: usize) -> Result<(), Fault>;
}
