// Quantifiers before a formula of which the truth may be known.

ghost use Rattle.std.specs.Prelude.{ℕ, suc, IfOk};
ghost use Rattle.formula.specs.Form.{existential, universal};
ghost use Rattle.formula.specs.Tree.{form};
ghost use Rattle.model_formulas.specs.Expanded.{IsBound};

use crate::atoms::{is_false, is_true};
use formula::{Core, Shared};
use linear_term::Memory;
use std::alloc::Global;

/// For all integers the formula.
#[tactic(auto, using(crate::proofs::Bound::bound))]
pub(crate) fn for_all(alloc: Global, g: Core) -> Result<Core, Memory>
    ensures { IfOk result (λ h. IsBound (universal (form g)) (form h)) }
{
    if is_true(&g) {
        return Ok(g);
    }
    if is_false(&g) {
        return Ok(g);
    }
    Ok(Core::Forall(Shared::new(alloc, g)?))
}

/// For some integer the formula.
#[tactic(auto, using(crate::proofs::Bound::bound))]
pub(crate) fn for_some(alloc: Global, g: Core) -> Result<Core, Memory>
    ensures { IfOk result (λ h. IsBound (existential (form g)) (form h)) }
{
    if is_true(&g) {
        return Ok(g);
    }
    if is_false(&g) {
        return Ok(g);
    }
    Ok(Core::Exists(Shared::new(alloc, g)?))
}
