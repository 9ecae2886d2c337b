// Whether an encoding is too large to be built.

ghost use Rattle.base_limits.specs.Limits.{most_levels, most_nodes};
ghost use Rattle.std.specs.Prelude.{◌≡◌, ◌||◌, nat_lt, true, false, length, drop};
ghost use Rattle.std.specs.List.{list_any};
ghost use Rattle.form_typed.specs.Formula.{formula};
ghost use Rattle.form_encoding.specs.Encoding.{bounds};
ghost use Rattle.form_encoding.specs.Extent.{restricted_extent};
ghost use Rattle.form_encoding.specs.Problems as problems;
ghost use Rattle.function_encoding.specs.Bounds.{below_types, kept_bounds};
ghost use Rattle.function_encoding.specs.Counted.{counted};

use crate::conditions::behind_conditions;
use crate::counting::{Extent, NOTHING, above, beside, extent_of, restricted};
use base_limits::{MOST_LEVELS, MOST_NODES};
use form_typed::Sort;
use pri_typing::Problem;

/// Whether the encoded problem has more than 1,000,000 nodes or a depth above 2,000. It is counted in one pass over the
/// problem's formula and its types, without building it and without memory.
pub fn is_large(p: &Problem) -> bool
    ensures { result ≡ problems.is_large (problems.problem_root p.now).value }
{
    let all = below(p.universal_types.as_slice(), extent_of(&p.formula));
    exceeds(with_conditions(p.existential_types.as_slice(), all))
}

/// That of a formula below quantifiers of these types.
fn below(sorts: &[Sort], e: Extent) -> Extent
    ensures { counted result ≡ below_types sorts.now (counted e) }
{
    let mut all = e;
    let mut i = sorts.len();
    while i > 0 {
        i -= 1;
        all = above(restricted(&sorts[i], all));
    }
    all
}

/// Whether the type has a condition.
fn is_bounded(sort: &Sort) -> bool
    ensures { result ≡ nat_lt 0 (length (bounds sort.now)) }
{
    match sort {
        Sort::Int => false,
        Sort::Nat => true,
        Sort::Range(_, _) => true,
    }
}

/// Whether some type has one.
fn has_bounds(sorts: &[Sort]) -> bool
    ensures { result ≡ list_any (λ s. nat_lt 0 (length (bounds s))) sorts.now }
{
    for sort in sorts {
        if is_bounded(sort) {
            return true;
        }
    }
    false
}

/// That of a formula with the conditions of names of these types, where they have any.
fn with_conditions(sorts: &[Sort], e: Extent) -> Extent
    ensures { counted result ≡ restricted_extent (kept_bounds (λ x. true) 0 sorts.now) (counted e) }
{
    if has_bounds(sorts) {
        return above(behind_conditions(true, &[], 0, sorts, beside(e, NOTHING)));
    }
    e
}

/// Whether nodes or levels pass their limit.
pub fn exceeds(e: Extent) -> bool
    ensures { result ≡ (nat_lt most_nodes e.nodes || nat_lt most_levels e.levels) }
{
    MOST_NODES < e.nodes || MOST_LEVELS < e.levels
}
