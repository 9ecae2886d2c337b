// The disjunctions of atoms, which an elimination and the check of its log make alike.

ghost use Rattle.clause_set.specs.Clauses.{clauses_of};
ghost use Rattle.clause_set.specs.Literals.{HasDivisor, term_of};
ghost use Rattle.elim_laws.specs.Whole.{paid, two_sides};
ghost use Rattle.base_budget.specs.Trace.{capped, just};
ghost use Rattle.base_budget.specs.Work.{Charged, Worked};
ghost use Rattle.std.specs.Prelude.{◌≡◌, ◌+◌, [], ◌∷◌, length};

use base_budget::{Purse, StepFault};
use clause_set::{Dnf, Literal, literal_clauses, negated_literal};
use linear_term::Term;
use std::alloc::Global;

/// 1 and the monomials of t.
fn charge(t: &Term) -> u64
    ensures { result ≡ capped (1 + length t.now.pairs) }
{
    (t.len() as u64).saturating_add(1)
}

/// The disjunction of one literal. It charges 1 and the monomials of its term.
#[tactic(auto, using(base_budget::proofs::Charging::charging, crate::proofs::Sides::one_tidied))]
pub fn of_literal(alloc: Global, l: Literal, purse: &mut Purse) -> Result<Dnf, StepFault>
    requires { HasDivisor l }
    ensures { Charged (paid (term_of l) (just (clauses_of ((l ∷ []) ∷ [])))) purse.old result purse.new }
{
    purse.step(charge(l.term()))?;
    let clauses = literal_clauses(alloc, l)?;
    Ok(Dnf::tidied(alloc, clauses)?)
}

/// The two sides of t ≠ 0, below 0 and above it, each a clause of the tidy form.
#[tactic(auto, using(base_budget::proofs::Charging::working))]
fn sides(alloc: Global, t: &Term) -> Result<Dnf, StepFault>
    ensures { Worked (two_sides t.now) result }
{
    let clauses = negated_literal(alloc, &Literal::Eq(t.copy()?))?;
    Ok(Dnf::tidied(alloc, clauses)?)
}

/// The disjunction of t ≠ 0. It charges 1 and the monomials of t; Overflow comes exactly where a number of its two sides leaves the
/// range, and names it.
#[tactic(auto, using(base_budget::proofs::Charging::charging))]
pub fn of_unequal(alloc: Global, t: &Term, purse: &mut Purse) -> Result<Dnf, StepFault>
    ensures { Charged (paid t.now (two_sides t.now)) purse.old result purse.new }
{
    purse.step(charge(t))?;
    sides(alloc, t)
}
