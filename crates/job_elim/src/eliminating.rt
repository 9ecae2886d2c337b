// The answer to a problem's file.

ghost use Rattle.base_answers.specs.Answer.{answer_of};
ghost use Rattle.job_elim.specs.Eliminated.{AnswersElimination, IsEliminated};
ghost use Rattle.pri_typing.specs.Problems.{IsPure};
ghost use Rattle.pri_typing.specs.WellFormed.{HasDistinctNames, HasIdentifiers, IsWellFormed};
ghost use Rattle.pri_problem.specs.Encoded.{AnswersEncoded, AnswersPure, IsEncoded};
ghost use Rattle.std.specs.Prelude.{◌≡◌, ◌<◌, ◌^◌, length, IfOk, None};

use base_answers::status::VALID;
use base_answers::{Output, refused_at, unknown};
use base_budget::{ElimFault, Purse};
use base_watch::{Event, Stage, Watch};
use function_encoding::Encoded;
use linear_term::Memory;
use pri_lines::constraint_line;
use pri_problem::{encode_problem, read_problem, refuse, refuse_encoding};
use pri_typing::Problem;
use quant_elim::eliminate;
use std::alloc::Global;

/// The answer of `elim` with a budget to a problem's file of these bytes.
pub fn answer<X: Watch>(
    alloc: Global,
    bytes: &[u8],
    budget: u64,
    watch: &mut X,
) -> Result<Output, Memory>
    requires bytes { length bytes.now < 2 ^ 32 }
    requires budget { budget < 2 ^ 32 }
    ensures { IfOk result (λ output. IsEliminated budget bytes.now (answer_of output)) }
{
    match read_problem(alloc, bytes) {
        Ok(problem) => problem_answer(alloc, &problem, budget, watch),
        Err(fault) => refuse(alloc, fault),
    }
}

// The answer to a problem: it is refused at its first application.
fn problem_answer<X: Watch>(
    alloc: Global,
    problem: &Problem,
    budget: u64,
    watch: &mut X,
) -> Result<Output, Memory>
    requires well_formed { IsWellFormed problem.now }
    requires distinct { HasDistinctNames problem.now }
    requires identifiers { HasIdentifiers problem.now }
    requires pure { problem.now.first_application ≡ None → IsPure problem.now }
    requires budget { budget < 2 ^ 32 }
    ensures { IfOk result (λ output. AnswersPure (AnswersEncoded (AnswersElimination budget)) problem.now (answer_of output)) }
{
    match problem.first_application {
        Some(at) => refused_at(alloc, b"Impure", at),
        None => pure_answer(alloc, problem, budget, watch),
    }
}

// The answer to a problem without applications.
fn pure_answer<X: Watch>(
    alloc: Global,
    problem: &Problem,
    budget: u64,
    watch: &mut X,
) -> Result<Output, Memory>
    requires well_formed { IsWellFormed problem.now }
    requires distinct { HasDistinctNames problem.now }
    requires identifiers { HasIdentifiers problem.now }
    requires pure { IsPure problem.now }
    requires budget { budget < 2 ^ 32 }
    ensures { IfOk result (λ output. AnswersEncoded (AnswersElimination budget) problem.now (answer_of output)) }
{
    match encode_problem(alloc, problem) {
        Ok(encoded) => elimination_answer(alloc, problem, &encoded, budget, watch),
        Err(refusal) => refuse_encoding(alloc, refusal),
    }
}

// The answer to an encoded problem: it tells how the elimination ends that has this budget.
fn elimination_answer<X: Watch>(
    alloc: Global,
    problem: &Problem,
    encoded: &Encoded,
    budget: u64,
    watch: &mut X,
) -> Result<Output, Memory>
    requires well_formed { IsWellFormed problem.now }
    requires distinct { HasDistinctNames problem.now }
    requires identifiers { HasIdentifiers problem.now }
    requires pure { IsPure problem.now }
    requires encoded { IsEncoded problem.now encoded.now }
    requires budget { budget < 2 ^ 32 }
    ensures { IfOk result (λ output. AnswersElimination budget problem.now (answer_of output)) }
{
    let mut purse = Purse::new(budget);
    let eliminated = eliminate(alloc, &encoded.root, encoded.constants, &mut purse);
    watch.tell(Event::Ends {
        stage: Stage::Elimination,
        steps: purse.spent(),
    });
    match eliminated {
        Ok((constraint, _log)) => {
            let text = constraint_line(alloc, problem, &constraint)?;
            Ok(Output {
                status: VALID,
                text,
            })
        }
        Err(ElimFault::Steps(_log)) => unknown(alloc, b"steps"),
        Err(ElimFault::Overflow(_log, _place)) => unknown(alloc, b"overflow"),
        Err(ElimFault::Memory) => Err(Memory),
    }
}
