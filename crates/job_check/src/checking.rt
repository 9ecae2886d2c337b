// The answer to a problem's file and a proof's file.

ghost use Rattle.base_answers.specs.Answer.{answer_of};
ghost use Rattle.job_check.specs.Checked.{AnswersProof, AnswersTree, IsChecked};
ghost use Rattle.job_check.specs.Clauses.{AnswersClauses};
ghost use Rattle.pri_typing.specs.WellFormed.{HasDistinctNames, HasIdentifiers, IsWellFormed};
ghost use Rattle.pri_problem.specs.Encoded.{AnswersEncoded, IsEncoded};
ghost use Rattle.std.specs.Prelude.{◌<◌, ◌^◌, length, IfOk};

use crate::telling::{tell_accepted, tell_clause_fault, tell_refused, tell_shown};
use base_answers::Output;
use clause_file::{check_clauses, is_clause_text};
use function_encoding::Encoded;
use linear_term::Memory;
use pri_problem::{encode_problem, read_problem, refuse, refuse_encoding};
use pri_typing::Problem;
use std::alloc::Global;
use tree_checker::check_text;

/// The answer of `check` to a problem's file and a proof's file of these bytes.
pub fn answer(alloc: Global, bytes: &[u8], proof: &[u8]) -> Result<Output, Memory>
    requires { length bytes.now < 2 ^ 32 }
    ensures { IfOk result (λ output. IsChecked proof.now bytes.now (answer_of output)) }
{
    match read_problem(alloc, bytes) {
        Ok(problem) => problem_answer(alloc, &problem, proof),
        Err(fault) => refuse(alloc, fault),
    }
}

// The answer to a problem and a proof.
fn problem_answer(alloc: Global, problem: &Problem, proof: &[u8]) -> Result<Output, Memory>
    requires well_formed { IsWellFormed problem.now }
    requires distinct { HasDistinctNames problem.now }
    requires identifiers { HasIdentifiers problem.now }
    ensures { IfOk result (λ output. AnswersEncoded (AnswersProof proof.now) problem.now (answer_of output)) }
{
    match encode_problem(alloc, problem) {
        Ok(encoded) => proof_answer(alloc, problem, &encoded, proof),
        Err(refusal) => refuse_encoding(alloc, refusal),
    }
}

// The answer to an encoded problem and a proof, by the format of the proof.
fn proof_answer(
    alloc: Global,
    problem: &Problem,
    encoded: &Encoded,
    proof: &[u8],
) -> Result<Output, Memory>
    requires well_formed { IsWellFormed problem.now }
    requires distinct { HasDistinctNames problem.now }
    requires identifiers { HasIdentifiers problem.now }
    requires encoded { IsEncoded problem.now encoded.now }
    ensures { IfOk result (λ output. AnswersProof proof.now problem.now (answer_of output)) }
{
    if is_clause_text(proof) {
        return clauses_answer(alloc, problem, encoded, proof);
    }
    tree_answer(alloc, problem, encoded, proof)
}

// The answer to an encoded problem and a proof tree: it tells what a check of the proof finds.
fn tree_answer(
    alloc: Global,
    problem: &Problem,
    encoded: &Encoded,
    proof: &[u8],
) -> Result<Output, Memory>
    requires well_formed { IsWellFormed problem.now }
    requires distinct { HasDistinctNames problem.now }
    requires identifiers { HasIdentifiers problem.now }
    requires encoded { IsEncoded problem.now encoded.now }
    ensures { IfOk result (λ output. AnswersTree proof.now problem.now (answer_of output)) }
{
    match check_text(alloc, &encoded.root, encoded.constants, proof) {
        Ok(checked) => tell_accepted(alloc, problem, &checked),
        Err(fault) => tell_refused(alloc, fault),
    }
}

// The same of a clause proof.
fn clauses_answer(
    alloc: Global,
    problem: &Problem,
    encoded: &Encoded,
    proof: &[u8],
) -> Result<Output, Memory>
    requires well_formed { IsWellFormed problem.now }
    requires distinct { HasDistinctNames problem.now }
    requires identifiers { HasIdentifiers problem.now }
    requires encoded { IsEncoded problem.now encoded.now }
    ensures { IfOk result (λ output. AnswersClauses proof.now problem.now (answer_of output)) }
{
    match check_clauses(alloc, &encoded.root, encoded.constants, proof) {
        Ok(values) => tell_shown(alloc, problem, values.as_slice()),
        Err(fault) => tell_clause_fault(alloc, fault),
    }
}
