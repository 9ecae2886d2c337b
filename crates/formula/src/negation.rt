// The negation of a formula, in negation normal form.

ghost use Rattle.std.specs.Prelude.{◌≡◌, negsuc, pos, map, List};
ghost use Rattle.linear_term.specs.Linear as linear;
ghost use Rattle.base_budget.specs.Trace.{combining};
ghost use Rattle.formula.specs.Duals as duals_of;
ghost use Rattle.formula.specs.Form.{forms};
ghost use Rattle.formula.specs.Made.{Made};
ghost use Rattle.formula.specs.Tree.{form, forms_of};

use crate::calculus::Core;
use crate::copying::copy_terms;
use crate::shared::Shared;
use linear_term::{Memory, Term, TermFault};
use sqlite_items::Items;
use std::alloc::Global;

/// The negation of a formula without predicates and functions, in negation normal form: an equation and its negation,
/// conjunctions and disjunctions, the quantifiers change places, and t ≥ 0 becomes −t − 1 ≥ 0. Overflow comes exactly
/// where a number of one of these terms leaves the range, and names such a one.
#[cycle(dual)]
pub fn dual(alloc: Global, f: &Core) -> Result<Core, TermFault>
    ensures { Made form (duals_of.dual (form f.now)) result }
{
    match f {
        Core::Eq(t) => Ok(Core::Neq(t.copy()?)),
        Core::Neq(t) => Ok(Core::Eq(t.copy()?)),
        Core::Geq(t) => Ok(Core::Geq(below(alloc, t)?)),
        Core::Pred(p, ts) => Ok(Core::NotPred(*p, copy_terms(alloc, ts.as_slice())?)),
        Core::NotPred(p, ts) => Ok(Core::Pred(*p, copy_terms(alloc, ts.as_slice())?)),
        Core::NotFun(h, ts, u) => Ok(Core::NotFun(
            *h,
            copy_terms(alloc, ts.as_slice())?,
            u.copy()?,
        )),
        Core::And(fs) => Ok(Core::Or(dual_all(alloc, fs.as_slice())?)),
        Core::Or(fs) => Ok(Core::And(dual_all(alloc, fs.as_slice())?)),
        Core::Forall(g) => Ok(Core::Exists(Shared::new(alloc, dual(alloc, g.get())?)?)),
        Core::Exists(g) => Ok(Core::Forall(Shared::new(alloc, dual(alloc, g.get())?)?)),
    }
}

#[cycle(dual)]
fn dual_all(alloc: Global, formulas: &[Core]) -> Result<Items<Core>, TermFault>
    ensures { Made (λ gs. forms_of gs) (duals_of.duals (forms_of formulas.now)) result }
{
    let mut out = Items::new(alloc);
    for f in formulas {
        out.push(dual(alloc, f)?)?;
    }
    Ok(out)
}

// -t - 1
#[tactic(auto, using(crate::proofs::Negating::combined))]
fn below(alloc: Global, t: &Term) -> Result<Term, TermFault>
    ensures { Made (λ u. u) (combining (negsuc 0) t.now (pos 1) (linear.number (negsuc 0))) result }
{
    Term::combine(-1, t, 1, &Term::number(alloc, -1))
}
