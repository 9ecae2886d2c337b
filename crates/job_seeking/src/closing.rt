// The formula that says that another one is false at all integers.

ghost use Rattle.form_encoding.specs.Root.{all_last};
ghost use Rattle.formula.specs.Duals as duals;
ghost use Rattle.formula.specs.Tree.{form};
ghost use Rattle.std.specs.Prelude.{◌≡◌, IfOk, IfSome};

use formula::{Core, Shared, dual};
use linear_term::{Memory, TermFault};
use std::alloc::Global;

/// The negation of a formula without predicates and functions. None where a number of it leaves the range.
pub(crate) fn negated(alloc: Global, f: &Core) -> Result<Option<Core>, Memory>
    ensures { IfOk result (λ made. IfSome made (λ g. form g ≡ (duals.dual (form f.now)).value)) }
{
    match dual(alloc, f) {
        Ok(negation) => Ok(Some(negation)),
        Err(TermFault::Overflow(_)) => Ok(None),
        Err(TermFault::Memory) => Err(Memory),
    }
}

/// The formula for all integers of its last names, this many.
pub(crate) fn for_all(alloc: Global, f: Core, names: u32) -> Result<Core, Memory>
    ensures { IfOk result (λ g. form g ≡ all_last names (form f)) }
{
    let mut all = f;
    for _ in 0..names {
        all = Core::Forall(Shared::new(alloc, all)?);
    }
    Ok(all)
}
