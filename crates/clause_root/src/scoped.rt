// A root prepared with its quantifiers moved inwards before: eliminations of the parts are shorter than one of the whole. The
// first for-alls stay where they are, so a proof opens one constant for each of them, in their order.

ghost use Rattle.formula.specs.Form.{FormTruth, IsFormOver};
ghost use Rattle.formula.specs.Sizes.{depth};
ghost use Rattle.formula.specs.Tree.{form};
ghost use Rattle.form_miniscope.specs.Miniscope.{scoped_below};
ghost use Rattle.clause_root_laws.specs.Prepared.{prepared};
ghost use Rattle.std.specs.Prelude.{◌≡◌, ◌+◌, ◌*◌, ◌≤◌, ◌^◌, ◌↔◌, IfOk, List, ℤ, false, length};
ghost use Rattle.form_typed.specs.Truth.{Meaning};

use super::preparing::prepare;
use form_miniscope::scoped_below;
use formula::Core;
use linear_term::Memory;
use std::alloc::Global;

/// The root over `count` names, miniscoped below its first for-alls and then prepared with `steps` steps: true exactly where
/// the root is. The same root and steps give the same formula.
pub fn prepare_scoped(alloc: Global, root: &Core, count: u32, steps: u64) -> Result<Core, Memory>
    requires room { count + 2 * depth (form root.now) + 64 ≤ 2 ^ 32 }
    requires over { IsFormOver count (form root.now) }
    ensures exact { IfOk result (λ f. form f ≡ (prepared false count (scoped_below count (form root.now)) steps).0) }
    ensures truth { IfOk result (λ f. (w : Meaning) (e : List ℤ) → length e ≡ count → FormTruth w (form f) e ↔ FormTruth w (form root.now) e) }
    ensures over { IfOk result (λ f. IsFormOver count (form f)) }
{
    let scoped = scoped_below(alloc, count, root)?;
    prepare(alloc, &scoped, count, steps)
}
