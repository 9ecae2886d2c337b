// The encoding of what parts of a problem assume.

ghost use Rattle.std.specs.Prelude.{◌≡◌, ◌↔◌, ◌++◌, false, true, ℤ, IfOk, List, length, map};
ghost use Rattle.std.specs.List.{filter};
ghost use Rattle.form_typed.specs.Formula.{every};
ghost use Rattle.form_typed.specs.Truth.{Meaning, Truth};
ghost use Rattle.pri_typing.specs.Problems.{IsPure, assumed_by, is_part_in};
ghost use Rattle.pri_typing.specs.WellFormed.{IsWellFormed, components_of};
ghost use Rattle.formula.specs.Form.{FormTruth, IsFormOver, conjunction, forms, is_pure};
ghost use Rattle.formula.specs.Made.{Made};
ghost use Rattle.formula.specs.Tree.{form, forms_of};
ghost use Rattle.form_encoding.specs.Encoding as encoding;
ghost use Rattle.form_encoding.specs.Extent as extents;
ghost use Rattle.form_encoding.specs.Problems as problems;
ghost use Rattle.form_encoding.specs.Problems.{assumed_form, constants, over_constants, parts_root, types};
ghost use Rattle.form_encoding.specs.Meaning.{AreTypedIn};
ghost use Rattle.form_encoding.specs.Occurrences.{occurs};
ghost use Rattle.form_encoding.specs.Root.{conditions};
ghost use Rattle.base_budget.specs.Trace.{just, next};
ghost use Rattle.function_encoding.specs.Bounds.{extents_before, kept_bounds};
ghost use Rattle.function_encoding.specs.Marks.{AreMarks, is_marked};
ghost use Rattle.function_encoding.specs.Counted.{counted};
ghost use Rattle.function_encoding.specs.Encoded.{Encodes, all_assumed, all_signed};
ghost use Rattle.function_encoding.specs.Ranged.{HaveRangedNumbers};
ghost use Rattle.function_encoding.specs.Room.{HasNamesLeft};

use crate::answer::EncodeRefusal;
use crate::building::junction;
use crate::component::Component;
use crate::components::components;
use crate::conditions as kept;
use crate::conditions::behind_conditions;
use crate::counting::{Extent, NOTHING, above, beside, extent_of};
use crate::encoder::encoded;
use crate::largeness::exceeds;
use crate::marks::marks_of;
use crate::naming::own_names;
use formula::Core;
use linear_term::TermFault;
use pri_typing::Problem;
use sqlite_items::Items;
use std::alloc::Global;

/// What the parts with these numbers assume, over all constants of the problem: one flat conjunction of what their
/// components assume, in the order of the file, a component that stands with plus by its negation, and after them of the
/// conditions of the constants that occur in it. Large and Overflow come as `encode` says, for this conjunction.
pub fn encode_parts(alloc: Global, p: &Problem, set: &[u32]) -> Result<Core, EncodeRefusal>
    requires { IsWellFormed p.now }
    ensures work { Encodes (parts_root p.now set.now) result }
    ensures flat { IfOk result (λ f. form f ≡ conjunction (forms (map (assumed_form p.now) (filter (λ c. is_part_in set.now c.what) (components_of p.now))
        ++ (conditions (λ x. occurs x (assumed_by p.now set.now)) 0 (types p.now)).value))) }
    ensures over { IfOk result (λ f. IsFormOver (constants p.now) (form f)) }
    ensures small { IfOk result (λ f. problems.is_large (form f) ≡ false) }
    ensures pure { IfOk result (λ f. IsPure p.now → is_pure (form f) ≡ true) }
    ensures truth { IfOk result (λ f. (w : Meaning) (v : List ℤ) → length v ≡ constants p.now → FormTruth w (form f) v ↔ (Truth w (assumed_by p.now set.now) v × AreTypedIn (types p.now) (assumed_by p.now set.now) v)) }
{
    let chosen = components(alloc, &p.formula, set)?;
    let occurring = marks_of(alloc, p, set)?;
    let marks = occurring.as_slice();
    if exceeds(extent_of_all(chosen.as_slice(), extent_of_conditions(p, marks))) {
        return Err(EncodeRefusal::Large);
    }
    Ok(all_of(alloc, p, set, marks, chosen.as_slice())?)
}

/// The extent of the conditions of the constants that are marked.
fn extent_of_conditions(p: &Problem, marks: &[bool]) -> Extent
    requires { IsWellFormed p.now }
    ensures { counted result ≡ extents.behind_atoms (kept_bounds (λ x. is_marked marks.now x) 0 (types p.now)) extents.nothing }
{
    let first = p.existential_types.len();
    let last = behind_conditions(false, marks, first, p.universal_types.as_slice(), NOTHING);
    behind_conditions(false, marks, 0, p.existential_types.as_slice(), last)
}

/// The extent of the conjunction of what these components assume, with others after them.
fn extent_of_all(components: &[Component], others: Extent) -> Extent
    ensures { counted result ≡ extents.above (extents_before (all_assumed components.now) (counted others)) }
{
    let mut all = others;
    let mut i = components.len();
    while i > 0 {
        i -= 1;
        all = beside(extent_of(components[i].what), all);
    }
    above(all)
}

/// The conjunction, where it is not too large.
fn all_of(
    alloc: Global,
    p: &Problem,
    set: &[u32],
    marks: &[bool],
    components: &[Component],
) -> Result<Core, TermFault>
    requires formed { IsWellFormed p.now }
    requires marked { AreMarks (constants p.now) (assumed_by p.now set.now) marks.now }
    requires chosen { all_signed components.now ≡ filter (λ c. is_part_in set.now c.what) (components_of p.now) }
    requires small { problems.is_large (parts_root p.now set.now).value ≡ false }
    ensures { Made form (parts_root p.now set.now) result }
{
    let n = p.existentials.len() as u32 + p.universals.len() as u32;
    let names = own_names(alloc, n)?;
    let members = members(alloc, names.as_slice(), n, components)?;
    let all = all_conditions(alloc, p, marks, members)?;
    Ok(junction(true, all))
}

/// The formulas, with the conditions of the constants that are marked after them.
fn all_conditions(
    alloc: Global,
    p: &Problem,
    marks: &[bool],
    out: Items<Core>,
) -> Result<Items<Core>, TermFault>
    requires { IsWellFormed p.now }
    ensures { Made (λ hs. map form hs) (next (conditions (λ x. is_marked marks.now x) 0 (types p.now)) (λ hs. just (map form out ++ hs))) result }
{
    let first = p.existential_types.as_slice();
    let some = kept::conditions(alloc, false, marks, 0, first, out)?;
    let n = first.len() as u32;
    kept::conditions(alloc, false, marks, n, p.universal_types.as_slice(), some)
}

/// What each of these components assumes.
fn members(
    alloc: Global,
    at: &[u32],
    n: u32,
    components: &[Component],
) -> Result<Items<Core>, TermFault>
    requires ranged { HaveRangedNumbers (all_assumed components.now) }
    requires room { HasNamesLeft n (extents.extents (all_assumed components.now)) }
    ensures { Made (λ gs. forms_of gs) (encoding.all_encoded at.now n true (all_assumed components.now)) result }
{
    let mut out = Items::new(alloc);
    for c in components {
        out.push(encoded(alloc, at, n, !c.plus, c.what)?)?;
    }
    Ok(out)
}
