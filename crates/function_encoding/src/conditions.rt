// The conditions of several names.

ghost use Rattle.base_limits.specs.Limits.{most_constants};
ghost use Rattle.std.specs.Prelude.{◌≡◌, ◌||◌, ◌+◌, ◌<◌, ◌≤◌, ◌^◌, false, ◌++◌, [], cond, length, map, All};
ghost use Rattle.base_budget.specs.Trace.{just, next};
ghost use Rattle.form_typed.specs.Sorts.{IsSortRanged};
ghost use Rattle.formula.specs.Made.{Made};
ghost use Rattle.formula.specs.Tree.{form};
ghost use Rattle.form_encoding.specs.Encoding as encoding;
ghost use Rattle.form_encoding.specs.Extent.{behind_atoms};
ghost use Rattle.form_encoding.specs.Root as roots;
ghost use Rattle.function_encoding.specs.Bounds.{kept_bounds};
ghost use Rattle.function_encoding.specs.Counted.{counted};
ghost use Rattle.function_encoding.specs.Marks as marking;

use crate::bounds::limits;
use crate::counting::{Extent, behind};
use form_typed::Sort;
use formula::Core;
use linear_term::TermFault;
use sqlite_items::Items;
use std::alloc::Global;

/// Whether the mark of x is set.
fn is_marked(marks: &[bool], x: usize) -> bool
    ensures { result ≡ marking.is_marked marks.now x }
{
    match marks.get(x) {
        Some(mark) => *mark,
        None => false,
    }
}

/// Whether the name x is among all, or else among those that are marked.
fn is_kept(all: bool, marks: &[bool], x: usize) -> bool
    ensures { result ≡ (all || marking.is_marked marks.now x) }
{
    all || is_marked(marks, x)
}

/// The formulas, with the conditions of the name x after them, where it is kept.
fn with_kept(
    alloc: Global,
    kept: bool,
    x: u32,
    sort: &Sort,
    out: Items<Core>,
) -> Result<Items<Core>, TermFault>
    requires { IsSortRanged sort.now }
    ensures { Made (λ hs. map form hs) (next (cond kept (encoding.limits false x (encoding.bounds sort.now)) (just [])) (λ hs. just (map form out ++ hs))) result }
{
    if kept {
        return limits(alloc, false, x, sort, out);
    }
    Ok(out)
}

/// The formulas, with the conditions of the names of these types after them, from the name `first` on: of all of them, or
/// else of those that are marked.
pub fn conditions(
    alloc: Global,
    all: bool,
    marks: &[bool],
    first: u32,
    sorts: &[Sort],
    out: Items<Core>,
) -> Result<Items<Core>, TermFault>
    requires few { first + length sorts.now ≤ most_constants }
    requires ranged { All IsSortRanged sorts.now }
    ensures { Made (λ hs. map form hs) (next (roots.conditions (λ x. all || marking.is_marked marks.now x) first sorts.now) (λ hs. just (map form out ++ hs))) result }
{
    let mut formulas = out;
    for (i, sort) in sorts.iter().enumerate() {
        let x = first + i as u32;
        formulas = with_kept(alloc, is_kept(all, marks, x as usize), x, sort, formulas)?;
    }
    Ok(formulas)
}

/// Formulas after the conditions of a name, where it is kept.
fn behind_kept(kept: bool, sort: &Sort, e: Extent) -> Extent
    ensures { counted result ≡ behind_atoms (cond kept (length (encoding.bounds sort.now)) 0) (counted e) }
{
    if kept {
        return behind(sort, e);
    }
    e
}

/// Formulas after the conditions of the names of these types, of all of them, or else of those that are marked.
pub fn behind_conditions(
    all: bool,
    marks: &[bool],
    first: usize,
    sorts: &[Sort],
    e: Extent,
) -> Extent
    requires { first + length sorts.now < 2 ^ 64 }
    ensures { counted result ≡ behind_atoms (kept_bounds (λ x. all || marking.is_marked marks.now x) first sorts.now) (counted e) }
{
    let mut extent = e;
    let mut i = sorts.len();
    while i > 0 {
        i -= 1;
        extent = behind_kept(is_kept(all, marks, first + i), &sorts[i], extent);
    }
    extent
}
