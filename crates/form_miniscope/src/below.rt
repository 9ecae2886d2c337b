// Miniscoping below the first for-alls of a formula: these stay, in their order.

ghost use Rattle.formula.specs.Sizes.{depth};
ghost use Rattle.formula.specs.Tree.{form};
ghost use Rattle.form_miniscope.specs.Miniscope as moving;
ghost use Rattle.std.specs.Prelude.{◌≡◌, ◌+◌, ◌≤◌, ◌^◌, IfOk};

use super::moving::miniscoped;
use formula::{Core, Shared};
use linear_term::Memory;
use std::alloc::Global;

/// The formula over n names with its first for-alls as they are, and what stands below them miniscoped.
#[tactic(auto, using(formula::proofs::Building::formed))]
pub fn scoped_below(alloc: Global, n: u32, f: &Core) -> Result<Core, Memory>
    requires { n + depth (form f.now) ≤ 2 ^ 32 }
    ensures { IfOk result (λ g. form g ≡ moving.scoped_below n (form f.now)) }
{
    match f {
        Core::Forall(g) => {
            let body = scoped_below(alloc, n + 1, g.get())?;
            Ok(Core::Forall(Shared::new(alloc, body)?))
        }
        Core::Eq(_) => miniscoped(alloc, n, f),
        Core::Neq(_) => miniscoped(alloc, n, f),
        Core::Geq(_) => miniscoped(alloc, n, f),
        Core::Pred(_, _) => miniscoped(alloc, n, f),
        Core::NotPred(_, _) => miniscoped(alloc, n, f),
        Core::NotFun(_, _, _) => miniscoped(alloc, n, f),
        Core::And(_) => miniscoped(alloc, n, f),
        Core::Or(_) => miniscoped(alloc, n, f),
        Core::Exists(_) => miniscoped(alloc, n, f),
    }
}
