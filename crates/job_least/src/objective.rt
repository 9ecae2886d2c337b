// The term whose least value is asked for.

ghost use Rattle.job_least.specs.Objective.{IsNoObjective, IsObjective};
ghost use Rattle.base_limits.specs.Limits.{most_constants};
ghost use Rattle.pri_typing.specs.WellFormed.{IsWellFormed};
ghost use Rattle.std.specs.Prelude.{◌≤◌, IfOk, MatchOption, length};
ghost use Rattle.form_typed.specs.Formula.{expression};

use crate::plain::is_plain;
use crate::term_reading::read_term;
use form_typed::TypedTerm;
use linear_term::Memory;
use pri_typing::{Problem, resolve_term};
use std::alloc::Global;

/// The term that the text says: a sum of the existential constants without conditions, absolute values, minima and maxima; none
/// where the text is no such term.
pub(crate) fn objective(
    alloc: Global,
    problem: &Problem,
    text: &[u8],
) -> Result<Option<TypedTerm>, Memory>
    requires { length problem.now.existentials ≤ most_constants }
    ensures { IfOk result (λ found. MatchOption found (IsNoObjective problem.now text.now) (λ t. IsObjective problem.now text.now (expression t))) }
{
    let Some(expr) = read_term(alloc, text)? else {
        return Ok(None);
    };
    let Some(term) = resolve_term(alloc, problem.existentials.as_slice(), &expr)? else {
        return Ok(None);
    };
    if is_plain(&term) {
        Ok(Some(term))
    } else {
        Ok(None)
    }
}
