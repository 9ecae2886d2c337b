// A disjunction of clauses as a formula of the calculus.

ghost use Rattle.clause_set.specs.Literals.{HasDivisor, IsDivisor, term_of};
ghost use Rattle.elim_laws.specs.Whole.{AreOver};
ghost use Rattle.formula.specs.Tree.{form};
ghost use Rattle.linear_term.specs.Linear.{IsOver};
ghost use Rattle.clause_root_laws.specs.Clausal.{AreTermsOver, clause_form, dnf_form, literal_form, remainder};
ghost use Rattle.std.specs.Prelude.{◌≡◌, All, IfOk, map};

use clause_set::{Clause, Dnf, Literal};
use formula::{Core, Shared};
use linear_term::{Memory, Term};
use sqlite_items::Items;
use std::alloc::Global;

/// t − d·q, where q is the name `names`.
fn remainder(t: &Term, names: u32, d: i128) -> Result<Term, Memory>
    requires over { IsOver names t.now }
    requires divisor { IsDivisor d }
    ensures { IfOk result (λ u. u ≡ remainder names d t.now) }
{
    let mut rest = t.copy()?;
    rest.push(names, -d)?;
    Ok(rest)
}

/// A literal over the names below `names`.
fn literal_form(alloc: Global, l: &Literal, names: u32) -> Result<Core, Memory>
    requires over { IsOver names (term_of l.now) }
    requires divisor { HasDivisor l.now }
    ensures { IfOk result (λ f. form f ≡ literal_form names l.now) }
{
    match l {
        Literal::Eq(t) => Ok(Core::Eq(t.copy()?)),
        Literal::Geq(t) => Ok(Core::Geq(t.copy()?)),
        Literal::Div(d, t) => {
            let body = Core::Eq(remainder(t, names, *d)?);
            Ok(Core::Exists(Shared::new(alloc, body)?))
        }
        Literal::NDiv(d, t) => {
            let body = Core::Neq(remainder(t, names, *d)?);
            Ok(Core::Forall(Shared::new(alloc, body)?))
        }
    }
}

/// A clause over the names below `names`: the conjunction of its literals.
fn clause_form(alloc: Global, literals: &[Literal], names: u32) -> Result<Core, Memory>
    requires over { AreTermsOver names literals.now }
    requires divisors { All HasDivisor literals.now }
    ensures { IfOk result (λ f. form f ≡ clause_form names literals.now) }
{
    let mut members = Items::new(alloc);
    for l in literals {
        members.push(literal_form(alloc, l, names)?)?;
    }
    Ok(Core::And(members))
}

/// Several clauses.
fn clause_forms(alloc: Global, clauses: &[Clause], names: u32) -> Result<Items<Core>, Memory>
    requires { All (AreTermsOver names) clauses.now }
    ensures { IfOk result (λ fs. map form fs ≡ map (clause_form names) clauses.now) }
{
    let mut members = Items::new(alloc);
    for c in clauses {
        c.know_clause();
        members.push(clause_form(alloc, c.literals(), names)?)?;
    }
    Ok(members)
}

/// A disjunction of clauses over the names below `names`.
pub(crate) fn dnf_form(alloc: Global, d: &Dnf, names: u32) -> Result<Core, Memory>
    requires { AreOver names d.now }
    ensures { IfOk result (λ f. form f ≡ dnf_form names d.now) }
{
    Ok(Core::Or(clause_forms(alloc, d.clauses(), names)?))
}
