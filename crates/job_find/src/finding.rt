// The answer of `find` to a problem's file.

ghost use Rattle.base_answers.specs.Answer.{answer_of};
ghost use Rattle.base_limits.specs.Limits.{most_budget};
ghost use Rattle.job_find.specs.Found.{AnswersFound, IsFoundIn, tree_form};
ghost use Rattle.pri_problem.specs.Cuttable.{IsCuttable};
ghost use Rattle.pri_problem.specs.Encoded.{AnswersEncoded, IsEncoded};
ghost use Rattle.pri_typing.specs.WellFormed.{HasDistinctNames, HasIdentifiers, IsWellFormed};
ghost use Rattle.std.specs.Prelude.{◌≡◌, ◌≤◌, ◌<◌, ◌^◌, length, IfOk};

use crate::telling::found;
use base_answers::status::INVALID;
use base_answers::{Output, ProofForm, say};
use base_watch::Watch;
use function_encoding::Encoded;
use job_seeking::{Sought, search_values};
use job_solve::run_answer;
use linear_term::Memory;
use pri_problem::{encode_problem, read_problem, refuse, refuse_encoding};
use pri_typing::Problem;
use std::alloc::Global;

/// The answer of `find` with a budget to a problem's file of these bytes, with the proof after it, where one is asked for.
pub fn answer<X: Watch>(
    alloc: Global,
    bytes: &[u8],
    budget: u64,
    proves: bool,
    watch: &mut X,
) -> Result<Output, Memory>
    requires bytes { length bytes.now < 2 ^ 32 }
    requires budget { budget ≤ most_budget }
    ensures { IfOk result (λ output. IsFoundIn proves budget bytes.now (answer_of output)) }
{
    match read_problem(alloc, bytes) {
        Ok(problem) => problem_answer(alloc, &problem, budget, proves, watch),
        Err(fault) => refuse(alloc, fault),
    }
}

// The answer to a problem.
fn problem_answer<X: Watch>(
    alloc: Global,
    problem: &Problem,
    budget: u64,
    proves: bool,
    watch: &mut X,
) -> Result<Output, Memory>
    requires well_formed { IsWellFormed problem.now }
    requires distinct { HasDistinctNames problem.now }
    requires identifiers { HasIdentifiers problem.now }
    requires cuts { IsCuttable problem.now }
    requires budget { budget ≤ most_budget }
    ensures { IfOk result (λ output. AnswersEncoded (AnswersFound proves budget) problem.now (answer_of output)) }
{
    match encode_problem(alloc, problem) {
        Ok(encoded) => encoded_answer(alloc, problem, &encoded, budget, proves, watch),
        Err(refusal) => refuse_encoding(alloc, refusal),
    }
}

// The answer to an encoded problem: by the clause search, and where that finds nothing, by the canonical run with the whole budget.
fn encoded_answer<X: Watch>(
    alloc: Global,
    problem: &Problem,
    encoded: &Encoded,
    budget: u64,
    proves: bool,
    watch: &mut X,
) -> Result<Output, Memory>
    requires well_formed { IsWellFormed problem.now }
    requires distinct { HasDistinctNames problem.now }
    requires identifiers { HasIdentifiers problem.now }
    requires cuts { IsCuttable problem.now }
    requires encoded { IsEncoded problem.now encoded.now }
    requires budget { budget ≤ most_budget }
    ensures { IfOk result (λ output. AnswersFound proves budget problem.now (answer_of output)) }
{
    match search_values(alloc, problem, encoded, budget, watch)? {
        Sought::Values(values, proof) => found(
            alloc,
            problem,
            values.as_slice(),
            proof.as_slice(),
            proves,
        ),
        Sought::Nowhere => say(alloc, INVALID, b"INVALID"),
        Sought::Nothing => run_answer(alloc, problem, encoded, budget, form(proves), watch),
    }
}

// The form in which the canonical run prints its proof, where one is asked for.
fn form(proves: bool) -> Option<ProofForm>
    ensures { result ≡ tree_form proves }
{
    if proves { Some(ProofForm::Whole) } else { None }
}
