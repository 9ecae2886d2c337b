// The disjunctions of atoms.

ghost use Rattle.elim_laws.specs.Whole.{IsExact, eliminating};
ghost use Rattle.formula.specs.Tree.{form};
ghost use Rattle.base_budget.specs.Work.{Charged};
ghost use Rattle.quant_elim.specs.Atoms.{is_atom};
ghost use Rattle.std.specs.Prelude.{◌≡◌, IfOk, true, ℕ};

use super::knowing::know_terms;
use base_budget::{Purse, StepFault};
use clause_set::{Dnf, Literal};
use elim_laws::{of_literal, of_unequal};
use formula::Core;
use std::alloc::Global;

/// The disjunction of clauses that is true exactly where the atom f is: an equation, its negation or an inequality. It
/// charges 1 and the monomials of the term. Refused with Steps exactly where that passes the budget; with Overflow exactly
/// where a number of the two sides of t ≠ 0 leaves the range, which it names.
pub fn atom(alloc: Global, f: &Core, purse: &mut Purse) -> Result<Dnf, StepFault>
    requires { is_atom (form f.now) ≡ true }
    ensures charged { Charged (eliminating 0 (form f.now)) purse.old result purse.new }
    ensures exact { IfOk result (λ d. (n : ℕ) → IsExact d (form f.now) n) }
{
    know_terms(f);
    by_kind(alloc, f, purse)
}

/// The same by the kind of the atom.
#[tactic(auto, using(base_budget::proofs::Charging::no_memory, crate::proofs::Atomic::atomic))]
fn by_kind(alloc: Global, f: &Core, purse: &mut Purse) -> Result<Dnf, StepFault>
    requires { is_atom (form f.now) ≡ true }
    ensures { Charged (eliminating 0 (form f.now)) purse.old result purse.new }
{
    match f {
        Core::Eq(t) => of_literal(alloc, Literal::Eq(t.copy()?), purse),
        Core::Neq(t) => of_unequal(alloc, t, purse),
        Core::Geq(t) => of_literal(alloc, Literal::Geq(t.copy()?), purse),
        Core::Pred(_, _) => unreachable!(),
        Core::NotPred(_, _) => unreachable!(),
        Core::NotFun(_, _, _) => unreachable!(),
        Core::And(_) => unreachable!(),
        Core::Or(_) => unreachable!(),
        Core::Forall(_) => unreachable!(),
        Core::Exists(_) => unreachable!(),
    }
}
