// Sizes of the parts of a closing formula, read off the members.

ghost use Rattle.formula.specs.Tree.{form};
ghost use Rattle.tree_branch.specs.Pairing as pairing;
ghost use Rattle.pred_unify.specs.Pairs as pair;
ghost use Rattle.base_budget.specs.Trace.{capped};
ghost use Rattle.std.specs.Prelude.{◌≡◌};

use formula::Core;
use linear_term::Term;

fn alike(p: u32, ss: &[Term], q: u32, ts: &[Term]) -> bool
    ensures { result ≡ pair.alike p ss.now q ts.now }
{
    p == q && ss.len() == ts.len()
}

/// The size of the pair of a negated predicate and g: 0 where g is not that predicate.
pub(crate) fn predicate_pair_size(p: u32, ss: &[Term], g: &Core) -> u64
    ensures { result ≡ capped (pairing.predicate_pair_size p ss.now (form g.now)) }
{
    match g {
        Core::Pred(q, ts) => {
            if alike(p, ss, *q, ts.as_slice()) {
                (ss.len() as u64).saturating_add(1)
            } else {
                0
            }
        }
        Core::Eq(_) => 0,
        Core::Neq(_) => 0,
        Core::Geq(_) => 0,
        Core::NotPred(_, _) => 0,
        Core::NotFun(_, _, _) => 0,
        Core::And(_) => 0,
        Core::Or(_) => 0,
        Core::Forall(_) => 0,
        Core::Exists(_) => 0,
    }
}

/// The size of the pair of a function's value and g: 0 where g is not another value of it.
pub(crate) fn function_pair_size(f: u32, ss: &[Term], g: &Core) -> u64
    ensures { result ≡ capped (pairing.function_pair_size f ss.now (form g.now)) }
{
    match g {
        Core::NotFun(h, ts, _) => {
            if alike(f, ss, *h, ts.as_slice()) {
                (ss.len() as u64).saturating_add(2)
            } else {
                0
            }
        }
        Core::Eq(_) => 0,
        Core::Neq(_) => 0,
        Core::Geq(_) => 0,
        Core::Pred(_, _) => 0,
        Core::NotPred(_, _) => 0,
        Core::And(_) => 0,
        Core::Or(_) => 0,
        Core::Forall(_) => 0,
        Core::Exists(_) => 0,
    }
}
