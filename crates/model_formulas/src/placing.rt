// Atoms with terms for their names.

ghost use Rattle.std.specs.Prelude.{◌≡◌, ◌++◌, ◌∷◌, [], ℕ, IfOk};
ghost use Rattle.linear_term.specs.Linear as linear;
ghost use Rattle.formula.specs.Form.{at_least, differs, equal, fails, holds, unequal};
ghost use Rattle.formula.specs.Tree.{form};
ghost use Rattle.model_formulas.specs.Expanded.{IsExpansion};
ghost use Rattle.model_table.specs.declared.model.Model.{Model};

use crate::atoms::{equation, inequality, inequation};
use crate::choosing::{Guard, choices, differing};
use crate::effort::Effort;
use crate::fault::Fault;
use crate::predicates::predicate;
use crate::putting::{number, put_all, put_in, with_term};
use formula::{Core, dual};
use linear_term::Term;
use model_table::Model;
use sqlite_items::Items;
use std::alloc::Global;

/// t = 0.
#[tactic(auto, using(crate::proofs::Placed::equations))]
pub(crate) fn equation_at(
    alloc: Global,
    effort: &mut Effort,
    t: &Term,
    ts: &[Term],
) -> Result<Core, Fault>
    ensures { IfOk result (λ g. (m : Model) (n : ℕ) → IsExpansion m (equal t.now) ts.now n (form g)) }
{
    let u = put_in(alloc, effort, ts, t)?;
    Ok(equation(alloc, u))
}

/// t is not 0.
#[tactic(auto, using(crate::proofs::Placed::equations))]
pub(crate) fn inequation_at(
    alloc: Global,
    effort: &mut Effort,
    t: &Term,
    ts: &[Term],
) -> Result<Core, Fault>
    ensures { IfOk result (λ g. (m : Model) (n : ℕ) → IsExpansion m (unequal t.now) ts.now n (form g)) }
{
    let u = put_in(alloc, effort, ts, t)?;
    Ok(inequation(alloc, u))
}

/// t is at least 0.
#[tactic(auto, using(crate::proofs::Placed::equations))]
pub(crate) fn inequality_at(
    alloc: Global,
    effort: &mut Effort,
    t: &Term,
    ts: &[Term],
) -> Result<Core, Fault>
    ensures { IfOk result (λ g. (m : Model) (n : ℕ) → IsExpansion m (at_least t.now) ts.now n (form g)) }
{
    let u = put_in(alloc, effort, ts, t)?;
    Ok(inequality(alloc, u))
}

/// The predicate holds.
#[tactic(auto, using(crate::proofs::Placed::predicates))]
pub(crate) fn predicate_at(
    alloc: Global,
    effort: &mut Effort,
    model: &Model,
    p: u32,
    us: &[Term],
    ts: &[Term],
) -> Result<Core, Fault>
    ensures { IfOk result (λ g. (n : ℕ) → IsExpansion model.now (holds p us.now) ts.now n (form g)) }
{
    let arguments = put_all(alloc, effort, ts, us)?;
    let g = predicate(alloc, effort, model, p, arguments.as_slice())?;
    Ok(g)
}

/// The predicate does not hold.
#[tactic(auto, using(crate::proofs::Placed::predicates))]
pub(crate) fn no_predicate_at(
    alloc: Global,
    effort: &mut Effort,
    model: &Model,
    p: u32,
    us: &[Term],
    ts: &[Term],
) -> Result<Core, Fault>
    ensures { IfOk result (λ h. (n : ℕ) → IsExpansion model.now (fails p us.now) ts.now n (form h)) }
{
    let g = predicate_at(alloc, effort, model, p, us, ts)?;
    let h = dual(alloc, &g)?;
    Ok(h)
}

/// The function has another value than u.
#[tactic(auto, using(crate::proofs::Placed::functions))]
pub(crate) fn differing_at(
    alloc: Global,
    effort: &mut Effort,
    model: &Model,
    f: u32,
    us: &[Term],
    u: &Term,
    ts: &[Term],
) -> Result<Core, Fault>
    ensures { IfOk result (λ g. (n : ℕ) → IsExpansion model.now (differs f us.now u.now) ts.now n (form g)) }
{
    let arguments = put_all(alloc, effort, ts, us)?;
    let guards = choices(alloc, effort, model, f, arguments.as_slice())?;
    let value = put_in(alloc, effort, ts, u)?;
    let g = differing(alloc, effort, guards.as_slice(), &value)?;
    Ok(g)
}

/// The terms, and after them the name x.
pub(crate) fn with_name(
    alloc: Global,
    effort: &mut Effort,
    ts: &[Term],
    x: u32,
) -> Result<Items<Term>, Fault>
    ensures { IfOk result (λ r. r ≡ ts.now ++ linear.name x ∷ []) }
{
    let r = with_term(alloc, effort, ts, Term::name(alloc, x))?;
    Ok(r)
}

/// The terms, and after them the value of the guard.
pub(crate) fn with_value(
    alloc: Global,
    effort: &mut Effort,
    ts: &[Term],
    guard: &Guard,
) -> Result<Items<Term>, Fault>
    ensures { IfOk result (λ r. r ≡ ts.now ++ linear.number guard.now.value ∷ []) }
{
    let value = number(alloc, guard.value)?;
    let r = with_term(alloc, effort, ts, value)?;
    Ok(r)
}
