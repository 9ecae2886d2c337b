// The encoding of a problem, and of what parts of it assume.

ghost use Rattle.base_limits.specs.Limits.{most_constants};
ghost use Rattle.std.specs.Prelude.{◌≡◌, ◌↔◌, ◌<◌, ◌≤◌, ◌^◌, ◌+◌, false, ℤ, IfOk, IsTrue, List, length, map, All, Ok};
ghost use Rattle.std.specs.List.{filter};
ghost use Rattle.form_typed.specs.Formula.{every, formula, formulas};
ghost use Rattle.form_typed.specs.Truth.{Meaning, Truth};
ghost use Rattle.pri_typing.specs.Problems.{Holds, IsPure, assumed, assumed_by, is_part_in};
ghost use Rattle.pri_typing.specs.WellFormed.{IsWellFormed, components_of};
ghost use Rattle.base_budget.specs.Trace.{Traced};
ghost use Rattle.form_typed.specs.Sorts.{IsSortRanged};
ghost use Rattle.formula.specs.Form.{Form, FormTruth, IsFormOver, conjunction, forms, is_pure};
ghost use Rattle.formula.specs.Made.{Made};
ghost use Rattle.formula.specs.Tree.{form, forms_of};
ghost use Rattle.form_encoding.specs.Encoding as encoding;
ghost use Rattle.form_encoding.specs.Extent as extents;
ghost use Rattle.form_encoding.specs.Problems as problems;
ghost use Rattle.form_encoding.specs.Problems.{assumed_form, constants, over_constants, parts_root, problem_root};
ghost use Rattle.form_encoding.specs.Root as root_of_problem;
ghost use Rattle.function_encoding.specs.Counted.{counted};
ghost use Rattle.function_encoding.specs.Encoded.{Encodes, all_signed, root_of};
ghost use Rattle.function_encoding.specs.Ranged.{HaveRangedNumbers, HasRangedNumbers};
ghost use Rattle.function_encoding.specs.Room.{HasNamesLeft};

use crate::answer::{EncodeRefusal, Encoded};
use crate::bounds::{bind, restricted};
use crate::conditions::conditions;
use crate::encoder::encoded;
use crate::largeness::is_large;
use crate::naming::own_names;
use form_typed::Sort;
use formula::Core;
use linear_term::TermFault;
use pri_typing::Problem;
use sqlite_items::Items;
use std::alloc::Global;

/// The problem as one formula of the calculus, over its existential constants: for all values of the universal constants,
/// its formula in negation normal form, with functions as relations and conditions of terms as cases; where an existential
/// constant has a type with bounds, with its bounds. Large comes first,
/// and without memory; then Overflow exactly where a number of the encoding leaves the range, with such a one. In every
/// interpretation the root is true at values of the existential constants exactly where the problem holds there.
pub fn encode(alloc: Global, p: &Problem) -> Result<Encoded, EncodeRefusal>
    requires { IsWellFormed p.now }
    ensures work { Encodes (problem_root p.now) (root_of result) }
    ensures constants { IfOk result (λ e. e.constants ≡ length p.now.existentials) }
    ensures over { IfOk result (λ e. IsFormOver (length p.now.existentials) (form e.root)) }
    ensures small { IfOk result (λ e. problems.is_large (form e.root) ≡ false) }
    ensures pure { IfOk result (λ e. (e.pure ≡ is_pure (form e.root)) × (IsTrue e.pure ↔ IsPure p.now)) }
    ensures truth { IfOk result (λ e. (w : Meaning) (v : List ℤ) → length v ≡ length p.now.existentials → FormTruth w (form e.root) v ↔ Holds w p.now v) }
{
    if is_large(p) {
        return Err(EncodeRefusal::Large);
    }
    let root = root(alloc, p)?;
    let pure = formula::is_pure(&root);
    let constants = p.existentials.len() as u32;
    Ok(Encoded {
        root,
        constants,
        pure,
    })
}

/// The encoded problem, where it is not too large.
fn root(alloc: Global, p: &Problem) -> Result<Core, TermFault>
    requires formed { IsWellFormed p.now }
    requires small { problems.is_large (problem_root p.now).value ≡ false }
    ensures { Made form (problem_root p.now) result }
{
    let body = body(alloc, p)?;
    let first = p.existentials.len() as u32;
    let all = for_last(alloc, first, p.universal_types.as_slice(), body)?;
    let types = p.existential_types.as_slice();
    let conditions = conditions(alloc, true, &[], 0, types, Items::new(alloc))?;
    Ok(restricted(false, conditions, all)?)
}

/// The encoded formula of the problem, where that is not too large.
fn body(alloc: Global, p: &Problem) -> Result<Core, TermFault>
    requires formed { IsWellFormed p.now }
    requires small { problems.is_large (problem_root p.now).value ≡ false }
    ensures { Made form (problems.body p.now) result }
{
    let all = p.existentials.len() as u32 + p.universals.len() as u32;
    let names = own_names(alloc, all)?;
    encoded(alloc, names.as_slice(), all, true, &p.formula)
}

/// The formula for all values of these types of the names from `first` on, whatever work made it.
fn for_last(alloc: Global, first: u32, sorts: &[Sort], f: Core) -> Result<Core, TermFault>
    requires few { first + length sorts.now ≤ most_constants }
    requires ranged { All IsSortRanged sorts.now }
    ensures { (work : Traced Form) → Made form work (Ok f) → Made form (root_of_problem.for_last first sorts.now work) result }
{
    let mut all = f;
    let mut i = sorts.len();
    while i > 0 {
        i -= 1;
        all = bind(alloc, true, first + i as u32, &sorts[i], all)?;
    }
    Ok(all)
}
