// The values that the canonical run finds of the negated problem.

ghost use Rattle.base_limits.specs.Limits.{most_budget};
ghost use Rattle.job_values.specs.Values.{AreFalseValues, EndsValid};
ghost use Rattle.pri_problem.specs.Encoded.{Fits, IsEncoded, RefusesEncoding};
ghost use Rattle.pri_typing.specs.declared.problem.Problem.{Problem};
ghost use Rattle.pri_typing.specs.WellFormed.{IsWellFormed};
ghost use Rattle.std.specs.Prelude.{◌≡◌, ◌≤◌, ℤ, List, [], IfOk, MatchOption, None};

use crate::denying::denied;
use base_budget::Purse;
use base_watch::Unwatched;
use function_encoding::{EncodeRefusal, Encoded};
use linear_term::Memory;
use pri_problem::encode_problem;
use pri_typing::Problem;
use search::{Decided, decide};
use sqlite_items::Items;
use std::alloc::Global;

/// The best values of the universal constants, each of its type, at which the formula of the problem is false: those that the canonical
/// run of the negated problem finds with this budget. None exactly where that problem has no encoding, or its run ends otherwise.
pub fn false_values(
    alloc: Global,
    problem: &Problem,
    budget: u64,
) -> Result<Option<Items<i128>>, Memory>
    requires well_formed { IsWellFormed problem.now }
    requires alone { problem.now.existentials ≡ [] }
    requires budget { budget ≤ most_budget }
    ensures { IfOk result (λ found. MatchOption found ((vs : List ℤ) → ¬ (AreFalseValues budget problem.now vs)) (AreFalseValues budget problem.now)) }
{
    let other = denied(alloc, problem)?;
    encoded_values(alloc, &other, budget)
}

// The values of the existential constants with which the canonical run on a problem ends valid, if it has an encoding and the run does.
fn encoded_values(
    alloc: Global,
    problem: &Problem,
    budget: u64,
) -> Result<Option<Items<i128>>, Memory>
    requires well_formed { IsWellFormed problem.now }
    requires budget { budget ≤ most_budget }
    ensures { IfOk result (λ found. MatchOption found ((vs : List ℤ) → Fits problem.now → ¬ (EndsValid budget problem.now vs)) (λ vs. Fits problem.now × EndsValid budget problem.now vs)) }
{
    match encode_problem(alloc, problem) {
        Ok(encoded) => run_values(alloc, problem, &encoded, budget),
        Err(refusal) => no_values(refusal),
    }
}

// No values, where there is no encoding; but for lack of memory.
fn no_values(refusal: EncodeRefusal) -> Result<Option<Items<i128>>, Memory>
    ensures { (p : Problem) → RefusesEncoding p refusal → IfOk result (λ found. (found ≡ None) × ¬ (Fits p)) }
{
    match refusal {
        EncodeRefusal::Memory => Err(Memory),
        EncodeRefusal::Large => Ok(None),
        EncodeRefusal::Overflow(_) => Ok(None),
    }
}

/// The values of the existential constants with which the canonical run on an encoded problem with this budget ends valid, if it does.
pub fn run_values(
    alloc: Global,
    problem: &Problem,
    encoded: &Encoded,
    budget: u64,
) -> Result<Option<Items<i128>>, Memory>
    requires well_formed { IsWellFormed problem.now }
    requires encoded { IsEncoded problem.now encoded.now }
    requires budget { budget ≤ most_budget }
    ensures { IfOk result (λ found. MatchOption found ((vs : List ℤ) → ¬ (EndsValid budget problem.now vs)) (EndsValid budget problem.now)) }
{
    let mut purse = Purse::new(budget);
    let mut nobody = Unwatched;
    let decided = decide(
        alloc,
        &encoded.root,
        encoded.constants,
        &mut purse,
        &mut nobody,
    )?;
    match decided {
        Decided::Valid {
            constraint: _,
            solution,
        } => Ok(Some(solution)),
        Decided::Invalid { constraint: _ } => Ok(None),
        Decided::Saturated { constraint: _ } => Ok(None),
        Decided::Unknown { why: _, run: _ } => Ok(None),
    }
}
