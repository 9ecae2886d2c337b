// The negation of a problem.

ghost use Rattle.job_values.specs.Values.{IsDenied};
ghost use Rattle.std.specs.Prelude.{IfOk};

use form_typed::Typed;
use linear_term::Memory;
use pri_typing::{Problem, copy_symbols, copy_texts};
use sqlite_items::{Boxed, Items};
use std::alloc::Global;

/// The problem whose existential constants are the universal ones of this problem, and whose formula is the negation of this one's.
pub(crate) fn denied(alloc: Global, problem: &Problem) -> Result<Problem, Memory>
    ensures { IfOk result (IsDenied problem.now) }
{
    let formula = Boxed::new(alloc, problem.formula.copy(alloc)?)?;
    let existentials = copy_texts(alloc, problem.universals.as_slice())?;
    let existential_types = Items::from_slice(alloc, problem.universal_types.as_slice())?;
    let functions = copy_symbols(alloc, problem.functions.as_slice())?;
    let predicates = copy_symbols(alloc, problem.predicates.as_slice())?;
    let parts = copy_texts(alloc, problem.parts.as_slice())?;
    Ok(Problem {
        existentials,
        existential_types,
        universals: Items::new(alloc),
        universal_types: Items::new(alloc),
        functions,
        predicates,
        parts,
        formula: Typed::Not(formula),
        cuts: Items::new(alloc),
        first_application: None,
    })
}
