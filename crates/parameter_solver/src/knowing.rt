// What clauses of the code are by their types. These calls do nothing, and tell their callers so.

ghost use Rattle.clause_set.specs.Clause.{IsClause};
ghost use Rattle.std.specs.Prelude.{All};

use clause_set::Clause;

/// Clauses are normal forms.
pub fn know_clauses(cs: &[Clause])
    ensures { All IsClause cs.now }
{
    for c in cs {
        c.know_clause();
    }
}
