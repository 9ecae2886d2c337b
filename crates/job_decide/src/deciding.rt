// The answer of `solve` to a problem's file.

ghost use Rattle.base_answers.specs.Answer.{answer_of};
ghost use Rattle.base_limits.specs.Limits.{most_budget};
ghost use Rattle.pri_typing.specs.WellFormed.{HasDistinctNames, HasIdentifiers, IsWellFormed};
ghost use Rattle.pri_problem.specs.Encoded.{AnswersEncoded, IsEncoded};
ghost use Rattle.job_clauses.specs.Judged.{IsJudged};
ghost use Rattle.pri_problem.specs.Cuttable.{IsCuttable};
ghost use Rattle.job_decide.specs.Decided.{AnswersBySearch, AnswersDecided, IsDecidedAs, IsLeftOpen};
ghost use Rattle.job_decide.specs.Shown.{AnswersShown};
ghost use Rattle.job_parts.specs.Parts.{IsCut, first_part};
ghost use Rattle.job_solve.specs.Proved.{AnswersRunAs};
ghost use Rattle.job_solve.specs.Solved.{run_end};
ghost use Rattle.pri_typing.specs.Problems.{IsPure};
ghost use Rattle.std.specs.Prelude.{◌≡◌, ◌≤◌, ◌<◌, ◌^◌, false, length, None, [], IfOk};

use crate::clauses::proved;
use crate::models::refuted;
use crate::shown::shown;
use base_answers::status::{INVALID, UNKNOWN};
use base_answers::{Output, ProofForm, say};
use base_watch::Watch;
use function_encoding::Encoded;
use job_clauses::{Judged, search_briefly, search_judged};
use job_parts::{first_part, longer_part};
use job_seeking::search_nowhere;
use job_solve::{Course, run_answer, run_within};
use linear_term::Memory;
use pri_problem::{encode_problem, read_problem, refuse, refuse_encoding};
use pri_typing::Problem;
use std::alloc::Global;

/// The answer of `solve` with a budget to a problem's file of these bytes, with the proof after it in the form that is asked for, if
/// one is. With `calculus` it is the answer of the canonical run alone. With `shows` an INVALID of a problem without existential constants
/// shows values of the universal constants also where it has neither predicates nor functions.
pub fn answer<X: Watch>(
    alloc: Global,
    bytes: &[u8],
    budget: u64,
    asked: Option<ProofForm>,
    calculus: bool,
    shows: bool,
    watch: &mut X,
) -> Result<Output, Memory>
    requires bytes { length bytes.now < 2 ^ 32 }
    requires budget { budget ≤ most_budget }
    ensures { IfOk result (λ output. IsDecidedAs calculus shows asked budget bytes.now (answer_of output)) }
{
    match read_problem(alloc, bytes) {
        Ok(problem) => problem_answer(alloc, &problem, budget, asked, calculus, shows, watch),
        Err(fault) => refuse(alloc, fault),
    }
}

// The answer to a problem.
fn problem_answer<X: Watch>(
    alloc: Global,
    problem: &Problem,
    budget: u64,
    asked: Option<ProofForm>,
    calculus: bool,
    shows: bool,
    watch: &mut X,
) -> Result<Output, Memory>
    requires well_formed { IsWellFormed problem.now }
    requires distinct { HasDistinctNames problem.now }
    requires identifiers { HasIdentifiers problem.now }
    requires cuts { IsCuttable problem.now }
    requires budget { budget ≤ most_budget }
    ensures { IfOk result (λ output. AnswersEncoded (AnswersDecided calculus shows asked budget) problem.now (answer_of output)) }
{
    match encode_problem(alloc, problem) {
        Ok(encoded) => encoded_answer(
            alloc, problem, &encoded, budget, asked, calculus, shows, watch,
        ),
        Err(refusal) => refuse_encoding(alloc, refusal),
    }
}

// The answer to an encoded problem: that of the canonical run, where it ends with an answer within the first part of the budget, and
// where the calculus alone is asked for.
fn encoded_answer<X: Watch>(
    alloc: Global,
    problem: &Problem,
    encoded: &Encoded,
    budget: u64,
    asked: Option<ProofForm>,
    calculus: bool,
    shows: bool,
    watch: &mut X,
) -> Result<Output, Memory>
    requires well_formed { IsWellFormed problem.now }
    requires distinct { HasDistinctNames problem.now }
    requires identifiers { HasIdentifiers problem.now }
    requires cuts { IsCuttable problem.now }
    requires encoded { IsEncoded problem.now encoded.now }
    requires budget { budget ≤ most_budget }
    ensures { IfOk result (λ output. AnswersDecided calculus shows asked budget problem.now (answer_of output)) }
{
    if calculus {
        return whole_run(alloc, problem, encoded, budget, asked, shows, watch);
    }
    if !problem.existentials.is_empty() {
        return over_values(alloc, problem, encoded, budget, asked, shows, watch);
    }
    match run_within(
        alloc,
        problem,
        encoded,
        first_part(budget),
        budget,
        asked,
        watch,
    )? {
        Course::Told(output) => told(alloc, problem, encoded, output, budget, asked, shows, watch),
        Course::Cut(_) => briefly(alloc, problem, encoded, budget, asked, shows, watch),
    }
}

// The answer of the canonical run with the whole budget, with the values that are shown.
fn whole_run<X: Watch>(
    alloc: Global,
    problem: &Problem,
    encoded: &Encoded,
    budget: u64,
    asked: Option<ProofForm>,
    shows: bool,
    watch: &mut X,
) -> Result<Output, Memory>
    requires well_formed { IsWellFormed problem.now }
    requires distinct { HasDistinctNames problem.now }
    requires identifiers { HasIdentifiers problem.now }
    requires cuts { IsCuttable problem.now }
    requires encoded { IsEncoded problem.now encoded.now }
    requires budget { budget ≤ most_budget }
    ensures { IfOk result (λ output. AnswersShown shows asked budget problem.now (answer_of output)) }
{
    let output = run_answer(alloc, problem, encoded, budget, asked, watch)?;
    shown(alloc, problem, output, budget, asked, shows)
}

// The answer to a problem with existential constants: that of the canonical run. Where that is cut early, and the problem has neither
// predicates nor functions, a brief clause search looks for a proof that there are no values first, unless a proof is asked for.
fn over_values<X: Watch>(
    alloc: Global,
    problem: &Problem,
    encoded: &Encoded,
    budget: u64,
    asked: Option<ProofForm>,
    shows: bool,
    watch: &mut X,
) -> Result<Output, Memory>
    requires well_formed { IsWellFormed problem.now }
    requires distinct { HasDistinctNames problem.now }
    requires identifiers { HasIdentifiers problem.now }
    requires cuts { IsCuttable problem.now }
    requires encoded { IsEncoded problem.now encoded.now }
    requires budget { budget ≤ most_budget }
    ensures { IfOk result (λ output. AnswersDecided false shows asked budget problem.now (answer_of output)) }
{
    if asked.is_some() || problem.first_application.is_some() {
        return whole_run(alloc, problem, encoded, budget, asked, shows, watch);
    }
    match run_within(
        alloc,
        problem,
        encoded,
        first_part(budget),
        budget,
        asked,
        watch,
    )? {
        Course::Told(output) => shown(alloc, problem, output, budget, asked, shows),
        Course::Cut(_) => or_nowhere(alloc, problem, encoded, budget, asked, shows, watch),
    }
}

// The answer to a problem with existential constants whose canonical run is cut early.
fn or_nowhere<X: Watch>(
    alloc: Global,
    problem: &Problem,
    encoded: &Encoded,
    budget: u64,
    asked: Option<ProofForm>,
    shows: bool,
    watch: &mut X,
) -> Result<Output, Memory>
    requires well_formed { IsWellFormed problem.now }
    requires distinct { HasDistinctNames problem.now }
    requires identifiers { HasIdentifiers problem.now }
    requires cuts { IsCuttable problem.now }
    requires encoded { IsEncoded problem.now encoded.now }
    requires unasked { asked ≡ None }
    requires pure { IsPure problem.now }
    requires cut { IsCut (run_end (first_part budget) problem.now) }
    requires budget { budget ≤ most_budget }
    ensures { IfOk result (λ output. AnswersDecided false shows asked budget problem.now (answer_of output)) }
{
    if search_nowhere(alloc, problem, encoded, budget, watch)? {
        return say(alloc, INVALID, b"INVALID");
    }
    whole_run(alloc, problem, encoded, budget, asked, shows, watch)
}

// The answer of the canonical run, with the values that are shown; where it says that nothing is known, that by what the clause search
// finds.
fn told<X: Watch>(
    alloc: Global,
    problem: &Problem,
    encoded: &Encoded,
    output: Output,
    budget: u64,
    asked: Option<ProofForm>,
    shows: bool,
    watch: &mut X,
) -> Result<Output, Memory>
    requires well_formed { IsWellFormed problem.now }
    requires distinct { HasDistinctNames problem.now }
    requires identifiers { HasIdentifiers problem.now }
    requires cuts { IsCuttable problem.now }
    requires encoded { IsEncoded problem.now encoded.now }
    requires alone { problem.now.existentials ≡ [] }
    requires run { AnswersRunAs asked budget problem.now (answer_of output) }
    requires budget { budget ≤ most_budget }
    ensures { IfOk result (λ output. AnswersDecided false shows asked budget problem.now (answer_of output)) }
{
    if output.status == UNKNOWN {
        return by_clauses(alloc, problem, encoded, budget, asked, shows, watch);
    }
    shown(alloc, problem, output, budget, asked, shows)
}

// The answer of a problem whose canonical run is cut early: by what a brief clause search finds, or by a longer canonical run. Some
// problems that are easy for the one are hard for the other.
fn briefly<X: Watch>(
    alloc: Global,
    problem: &Problem,
    encoded: &Encoded,
    budget: u64,
    asked: Option<ProofForm>,
    shows: bool,
    watch: &mut X,
) -> Result<Output, Memory>
    requires well_formed { IsWellFormed problem.now }
    requires distinct { HasDistinctNames problem.now }
    requires identifiers { HasIdentifiers problem.now }
    requires cuts { IsCuttable problem.now }
    requires encoded { IsEncoded problem.now encoded.now }
    requires left_open { IsLeftOpen budget problem.now }
    requires budget { budget ≤ most_budget }
    ensures { IfOk result (λ output. AnswersDecided false shows asked budget problem.now (answer_of output)) }
{
    let judged = search_briefly(alloc, problem, encoded, budget, watch)?;
    match found_answer(alloc, problem, encoded, judged, budget, asked, shows)? {
        Some(output) => Ok(output),
        None => longer(alloc, problem, encoded, budget, asked, shows, watch),
    }
}

// The answer of a longer canonical run; where that is cut too, by what the clause search finds.
fn longer<X: Watch>(
    alloc: Global,
    problem: &Problem,
    encoded: &Encoded,
    budget: u64,
    asked: Option<ProofForm>,
    shows: bool,
    watch: &mut X,
) -> Result<Output, Memory>
    requires well_formed { IsWellFormed problem.now }
    requires distinct { HasDistinctNames problem.now }
    requires identifiers { HasIdentifiers problem.now }
    requires cuts { IsCuttable problem.now }
    requires encoded { IsEncoded problem.now encoded.now }
    requires left_open { IsLeftOpen budget problem.now }
    requires budget { budget ≤ most_budget }
    ensures { IfOk result (λ output. AnswersDecided false shows asked budget problem.now (answer_of output)) }
{
    match run_within(
        alloc,
        problem,
        encoded,
        longer_part(budget),
        budget,
        asked,
        watch,
    )? {
        Course::Told(output) => told(alloc, problem, encoded, output, budget, asked, shows, watch),
        Course::Cut(_) => by_clauses(alloc, problem, encoded, budget, asked, shows, watch),
    }
}

// The answer by what the clause search finds, judged; else that of the canonical run with the whole budget.
fn by_clauses<X: Watch>(
    alloc: Global,
    problem: &Problem,
    encoded: &Encoded,
    budget: u64,
    asked: Option<ProofForm>,
    shows: bool,
    watch: &mut X,
) -> Result<Output, Memory>
    requires well_formed { IsWellFormed problem.now }
    requires distinct { HasDistinctNames problem.now }
    requires identifiers { HasIdentifiers problem.now }
    requires cuts { IsCuttable problem.now }
    requires encoded { IsEncoded problem.now encoded.now }
    requires left_open { IsLeftOpen budget problem.now }
    requires budget { budget ≤ most_budget }
    ensures { IfOk result (λ output. AnswersDecided false shows asked budget problem.now (answer_of output)) }
{
    let judged = search_judged(alloc, problem, encoded, budget, watch)?;
    match found_answer(alloc, problem, encoded, judged, budget, asked, shows)? {
        Some(output) => Ok(output),
        None => whole_run(alloc, problem, encoded, budget, asked, shows, watch),
    }
}

// The answer by what the clause search found, if it found something.
fn found_answer(
    alloc: Global,
    problem: &Problem,
    encoded: &Encoded,
    judged: Judged,
    budget: u64,
    asked: Option<ProofForm>,
    shows: bool,
) -> Result<Option<Output>, Memory>
    requires well_formed { IsWellFormed problem.now }
    requires distinct { HasDistinctNames problem.now }
    requires identifiers { HasIdentifiers problem.now }
    requires cuts { IsCuttable problem.now }
    requires encoded { IsEncoded problem.now encoded.now }
    requires left_open { IsLeftOpen budget problem.now }
    requires judged { IsJudged problem.now judged }
    requires budget { budget ≤ most_budget }
    ensures { IfOk result (AnswersBySearch shows asked budget problem.now) }
{
    match judged {
        Judged::Proof(text) => {
            let output = proved(alloc, problem, encoded, text.as_slice(), budget, asked)?;
            Ok(Some(output))
        }
        Judged::Refuted { model, universals } => {
            let output = refuted(alloc, problem, universals.as_slice(), &model, shows)?;
            Ok(Some(output))
        }
        Judged::Nothing => Ok(None),
    }
}
