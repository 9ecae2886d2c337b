// Whether a disjunction speaks of the first names alone, as `solve` asks.

ghost use Rattle.elim_laws.specs.Whole.{AreOver};
ghost use Rattle.parameter_solver.specs.Over.{clause_is_over, term_is_over};
ghost use Rattle.std.specs.List.{list_all};
ghost use Rattle.std.specs.Prelude.{◌≡◌, ◌↔◌, IsTrue};

use clause_set::{Clause, Dnf};
use linear_term::Term;

fn term_is_over(t: &Term, names: u32) -> bool
    ensures { result ≡ term_is_over names t.now }
{
    t.pairs().iter().all(|pair| pair.0 < names)
}

fn clause_is_over(c: &Clause, names: u32) -> bool
    ensures { result ≡ clause_is_over names c.now }
{
    c.literals().iter().all(|l| term_is_over(l.term(), names))
}

fn clauses_are_over(cs: &[Clause], names: u32) -> bool
    ensures { result ≡ list_all (clause_is_over names) cs.now }
{
    cs.iter().all(|c| clause_is_over(c, names))
}

/// Whether each name of d is below `names`: the test of what `solve` asks.
pub fn is_over(d: &Dnf, names: u32) -> bool
    ensures { IsTrue result ↔ AreOver names d.now }
{
    clauses_are_over(d.clauses(), names)
}
