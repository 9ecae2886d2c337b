// What clauses of the code are by their types. This call does nothing, and tells its caller so.

ghost use Rattle.clause_set.specs.Kept.{AreFormed};

use clause_set::Clause;

/// The literals of clauses are as clauses have them.
#[tactic(auto, using(crate::proofs::Formed::formed))]
pub fn know_formed(cs: &[Clause])
    ensures { AreFormed cs.now }
{
    for c in cs {
        c.know_clause();
    }
}
