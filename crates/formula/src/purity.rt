// Whether a formula has no predicate and no function.

ghost use Rattle.std.specs.Prelude.{◌≡◌, true, false};
ghost use Rattle.formula.specs.Form as tree;
ghost use Rattle.formula.specs.Tree.{form, forms_of};

use crate::calculus::Core;

/// Whether the formula has no predicate and no function. Takes no memory.
#[cycle(purity)]
#[tactic(auto, using(crate::proofs::Building::formed))]
pub fn is_pure(f: &Core) -> bool
    ensures { result ≡ tree.is_pure (form f.now) }
{
    match f {
        Core::Eq(_) => true,
        Core::Neq(_) => true,
        Core::Geq(_) => true,
        Core::Pred(_, _) => false,
        Core::NotPred(_, _) => false,
        Core::NotFun(_, _, _) => false,
        Core::And(fs) => are_pure(fs.as_slice()),
        Core::Or(fs) => are_pure(fs.as_slice()),
        Core::Forall(g) => is_pure(g.get()),
        Core::Exists(g) => is_pure(g.get()),
    }
}

#[cycle(purity)]
fn are_pure(formulas: &[Core]) -> bool
    ensures { result ≡ tree.are_pure (forms_of formulas.now) }
{
    for f in formulas {
        if !is_pure(f) {
            return false;
        }
    }
    true
}
