// The clause search for a proof that a problem without predicates and functions holds at no values, and the judgement of what it finds.

ghost use Rattle.formula.specs.Tree.{form};
ghost use Rattle.job_seeking.specs.Sought.{IsProvedNowhere, denial};
ghost use Rattle.pri_problem.specs.Encoded.{IsEncoded};
ghost use Rattle.pri_typing.specs.Problems.{IsPure};
ghost use Rattle.pri_typing.specs.WellFormed.{IsWellFormed};
ghost use Rattle.std.specs.Prelude.{◌≡◌, true, IfOk, IfSome};

use crate::closing::{for_all, negated};
use base_watch::Watch;
use cdcl_solver::{Found, search_at};
use clause_file::{ClauseFault, check_clauses};
use formula::Core;
use function_encoding::Encoded;
use linear_term::Memory;
use pri_typing::Problem;
use std::alloc::Global;

// A short search has one step for this many of a budget: the canonical run may be done sooner.
const SHARE: u64 = 25;

/// Whether a short clause search finds a clause proof that the problem holds at no values of its existential constants, which the check
/// accepts. The one error is running out of memory.
pub fn search_nowhere<X: Watch>(
    alloc: Global,
    problem: &Problem,
    encoded: &Encoded,
    budget: u64,
    watch: &mut X,
) -> Result<bool, Memory>
    requires well_formed { IsWellFormed problem.now }
    requires pure { IsPure problem.now }
    requires encoded { IsEncoded problem.now encoded.now }
    ensures { IfOk result (λ found. found ≡ true → IsProvedNowhere problem.now) }
{
    let Some(denial) = denial_of(alloc, problem, encoded)? else {
        return Ok(false);
    };
    let mut left = budget / SHARE;
    match search_at(alloc, &denial, &[], encoded.constants, &mut left, watch)? {
        Found::Proof(text) => is_denied(alloc, problem, encoded, &denial, text.as_slice()),
        Found::Model(_, _) => Ok(false),
        Found::Nothing => Ok(false),
    }
}

/// The formula that says that the encoding is false at all integers. None where a number of it leaves the range.
pub(crate) fn denial_of(
    alloc: Global,
    problem: &Problem,
    encoded: &Encoded,
) -> Result<Option<Core>, Memory>
    requires encoded { IsEncoded problem.now encoded.now }
    ensures { IfOk result (λ made. IfSome made (λ g. form g ≡ denial problem.now)) }
{
    let Some(negation) = negated(alloc, &encoded.root)? else {
        return Ok(None);
    };
    let denial = for_all(alloc, negation, encoded.constants)?;
    Ok(Some(denial))
}

/// Whether the check accepts the proof of the denial. A check that is cut says no.
pub(crate) fn is_denied(
    alloc: Global,
    problem: &Problem,
    encoded: &Encoded,
    negation: &Core,
    text: &[u8],
) -> Result<bool, Memory>
    requires well_formed { IsWellFormed problem.now }
    requires pure { IsPure problem.now }
    requires encoded { IsEncoded problem.now encoded.now }
    requires denial { form negation.now ≡ denial problem.now }
    ensures { IfOk result (λ denied. denied ≡ true → IsProvedNowhere problem.now) }
{
    match check_clauses(alloc, negation, 0, text) {
        Ok(_values) => Ok(true),
        Err(ClauseFault::Memory) => Err(Memory),
        Err(_) => Ok(false),
    }
}
