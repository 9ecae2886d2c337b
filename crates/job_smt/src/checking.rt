// The answer to a check.

ghost use Rattle.base_limits.specs.Limits.{most_budget};
ghost use Rattle.pri_typing.specs.WellFormed.{IsWellFormed};
ghost use Rattle.pri_typing.specs.declared.problem.Problem.{Problem};
ghost use Rattle.pri_problem.specs.Encoded.{Fits, IsEncoded};
ghost use Rattle.job_clauses.specs.Judged.{IsJudged};
ghost use Rattle.job_parts.specs.Parts.{IsCutEarly};
ghost use Rattle.job_smt.specs.Answers.{IsCheckAnswer, IsCheckOutcome, IsFoundAnswer, cause_of, told, told_of};
ghost use Rattle.model_runs.specs.Ends.{run_end};
ghost use Rattle.std.specs.Prelude.{◌≡◌, ◌≤◌, ℕ, [], IfOk};

use base_budget::Purse;
use base_watch::{Event, Stage, Watch};
use function_encoding::{EncodeRefusal, Encoded};
use job_clauses::{Judged, search_briefly, search_judged};
use job_parts::{first_part, longer_part};
use linear_term::Memory;
use pri_problem::encode_problem;
use pri_typing::Problem;
use proof_tree::Why;
use search::{Decided, decide};
use std::alloc::Global;

/// What is answered to a check (SMT-LIB 2.6, section 4.2.6).
#[derive(Debug, Clone, Copy)]
pub enum CheckAnswer {
    /// Nothing satisfies the assertions.
    Unsat,
    /// Something satisfies them.
    Sat,
    /// The canonical run was cut, or a number of the encoding leaves the range.
    Unknown(Cause),
}

/// Why a check has no answer.
#[derive(Debug, Clone, Copy)]
pub enum Cause {
    /// The steps of the budget were used up.
    Steps,
    /// A number would have left the range.
    Overflow,
    /// A branch of the proof tree would have grown too long.
    Branch,
}

/// The answer to the check whose problem this is, without existential constants, with this budget: by the canonical run, and where that
/// is cut within the first part of the budget, by the clause search, if its proof or model is accepted. Returns None exactly where the encoding of
/// the problem has more than 1,000,000 nodes or more than 2,000 levels. The one error is running out of memory.
pub fn check<X: Watch>(
    alloc: Global,
    p: &Problem,
    budget: u64,
    watch: &mut X,
) -> Result<Option<CheckAnswer>, Memory>
    requires formed { IsWellFormed p.now }
    requires alone { p.now.existentials ≡ [] }
    requires budget { budget ≤ most_budget }
    ensures { IfOk result (IsCheckOutcome budget p.now) }
{
    match encode_problem(alloc, p) {
        Ok(encoded) => {
            let answer = encoded_answer(alloc, p, &encoded, budget, watch)?;
            Ok(Some(answer))
        }
        Err(EncodeRefusal::Large) => Ok(None),
        Err(EncodeRefusal::Overflow(_)) => Ok(Some(CheckAnswer::Unknown(Cause::Overflow))),
        Err(EncodeRefusal::Memory) => Err(Memory),
    }
}

// The answer to the check whose encoded problem this is.
fn encoded_answer<X: Watch>(
    alloc: Global,
    p: &Problem,
    encoded: &Encoded,
    budget: u64,
    watch: &mut X,
) -> Result<CheckAnswer, Memory>
    requires formed { IsWellFormed p.now }
    requires alone { p.now.existentials ≡ [] }
    requires encoded { IsEncoded p.now encoded.now }
    requires budget { budget ≤ most_budget }
    ensures { IfOk result (IsCheckAnswer budget p.now) }
{
    match run(alloc, p, encoded, first_part(budget), watch)? {
        CheckAnswer::Unsat => Ok(CheckAnswer::Unsat),
        CheckAnswer::Sat => Ok(CheckAnswer::Sat),
        CheckAnswer::Unknown(_) => briefly(alloc, p, encoded, budget, watch),
    }
}

// The answer to a check whose canonical run is cut early: by what a brief clause search finds, or by a longer canonical run. Some
// problems that are easy for the one are hard for the other.
fn briefly<X: Watch>(
    alloc: Global,
    p: &Problem,
    encoded: &Encoded,
    budget: u64,
    watch: &mut X,
) -> Result<CheckAnswer, Memory>
    requires formed { IsWellFormed p.now }
    requires encoded { IsEncoded p.now encoded.now }
    requires early { IsCutEarly budget p.now }
    requires budget { budget ≤ most_budget }
    ensures { IfOk result (IsCheckAnswer budget p.now) }
{
    let judged = search_briefly(alloc, p, encoded, budget, watch)?;
    match found_answer(&judged) {
        Some(answer) => Ok(answer),
        None => longer(alloc, p, encoded, budget, watch),
    }
}

// The answer of a longer canonical run; where that is cut too, by what the clause search finds.
fn longer<X: Watch>(
    alloc: Global,
    p: &Problem,
    encoded: &Encoded,
    budget: u64,
    watch: &mut X,
) -> Result<CheckAnswer, Memory>
    requires formed { IsWellFormed p.now }
    requires encoded { IsEncoded p.now encoded.now }
    requires early { IsCutEarly budget p.now }
    requires budget { budget ≤ most_budget }
    ensures { IfOk result (IsCheckAnswer budget p.now) }
{
    match run(alloc, p, encoded, longer_part(budget), watch)? {
        CheckAnswer::Unsat => Ok(CheckAnswer::Unsat),
        CheckAnswer::Sat => Ok(CheckAnswer::Sat),
        CheckAnswer::Unknown(_) => by_clauses(alloc, p, encoded, budget, watch),
    }
}

// The answer by what the clause search finds, judged; else that of the canonical run with the whole budget.
fn by_clauses<X: Watch>(
    alloc: Global,
    p: &Problem,
    encoded: &Encoded,
    budget: u64,
    watch: &mut X,
) -> Result<CheckAnswer, Memory>
    requires formed { IsWellFormed p.now }
    requires encoded { IsEncoded p.now encoded.now }
    requires early { IsCutEarly budget p.now }
    requires budget { budget ≤ most_budget }
    ensures { IfOk result (IsCheckAnswer budget p.now) }
{
    let judged = search_judged(alloc, p, encoded, budget, watch)?;
    match found_answer(&judged) {
        Some(answer) => Ok(answer),
        None => run(alloc, p, encoded, budget, watch),
    }
}

// The answer by what the clause search found, if it found something.
fn found_answer(judged: &Judged) -> Option<CheckAnswer>
    ensures { (budget : ℕ) (p : Problem) → Fits p → IsCutEarly budget p → IsJudged p judged.now → IsFoundAnswer budget p result }
{
    match judged {
        Judged::Proof(_) => Some(CheckAnswer::Unsat),
        Judged::Refuted { .. } => Some(CheckAnswer::Sat),
        Judged::Nothing => None,
    }
}

// What the canonical run with this budget answers to the check whose encoded problem this is.
fn run<X: Watch>(
    alloc: Global,
    p: &Problem,
    encoded: &Encoded,
    budget: u64,
    watch: &mut X,
) -> Result<CheckAnswer, Memory>
    requires formed { IsWellFormed p.now }
    requires encoded { IsEncoded p.now encoded.now }
    requires budget { budget ≤ most_budget }
    ensures { IfOk result (λ a. a ≡ told (run_end budget p.now)) }
{
    let mut purse = Purse::new(budget);
    watch.tell(Event::Begins {
        stage: Stage::Canonical,
        budget,
    });
    let decided = decide(alloc, &encoded.root, encoded.constants, &mut purse, watch)?;
    watch.tell(Event::Ends {
        stage: Stage::Canonical,
        steps: purse.spent(),
    });
    Ok(answer_of(&decided))
}

// What a decision says of a check.
fn answer_of(decided: &Decided) -> CheckAnswer
    ensures { result ≡ told_of decided.now }
{
    match decided {
        Decided::Valid { .. } => CheckAnswer::Unsat,
        Decided::Invalid { .. } | Decided::Saturated { .. } => CheckAnswer::Sat,
        Decided::Unknown { why, .. } => CheckAnswer::Unknown(cause_by(why)),
    }
}

// Why a run was cut, without the place.
fn cause_by(why: &Why) -> Cause
    ensures { result ≡ cause_of why.now }
{
    match why {
        Why::Steps => Cause::Steps,
        Why::Overflow(_) => Cause::Overflow,
        Why::Branch => Cause::Branch,
    }
}
