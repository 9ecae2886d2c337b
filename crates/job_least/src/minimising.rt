// The answer to a problem's file and a term.

ghost use Rattle.base_answers.specs.Answer.{answer_of};
ghost use Rattle.form_encoding.specs.Plain.{IsPlain};
ghost use Rattle.job_least.specs.Leasts.{AnswersConstraint, AnswersLeast, AnswersMinimum, AnswersObjective, IsLeastAnswer, IsToldCut};
ghost use Rattle.linear_term.specs.Linear.{IsOver};
ghost use Rattle.elim_laws.specs.Whole.{AreOver};
ghost use Rattle.job_least.specs.Plain.{IsPlainRanged};
ghost use Rattle.pri_typing.specs.Problems.{IsPure};
ghost use Rattle.pri_typing.specs.WellFormed.{IsWellFormed};
ghost use Rattle.pri_problem.specs.Encoded.{AnswersEncoded, AnswersPure, IsEncoded};
ghost use Rattle.std.specs.Prelude.{◌≡◌, ◌<◌, ◌^◌, length, IfOk, None};
ghost use Rattle.form_typed.specs.Formula.{expression};

use crate::linear::linear_term;
use crate::objective::objective;
use crate::telling::told;
use base_answers::{Output, refused, refused_at, unknown};
use base_budget::{ElimFault, Purse, StepFault};
use base_watch::{Event, Stage, Watch};
use clause_set::Dnf;
use form_typed::TypedTerm;
use function_encoding::Encoded;
use linear_term::{Memory, Term};
use optimiser::least;
use pri_problem::{encode_problem, read_problem, refuse, refuse_encoding};
use pri_typing::Problem;
use quant_elim::eliminate;
use std::alloc::Global;

/// The answer of `least` with a budget to a problem's file of these bytes and this term.
pub fn answer<X: Watch>(
    alloc: Global,
    bytes: &[u8],
    term: &[u8],
    budget: u64,
    watch: &mut X,
) -> Result<Output, Memory>
    requires bytes { length bytes.now < 2 ^ 32 }
    requires budget { budget < 2 ^ 32 }
    ensures { IfOk result (λ output. IsLeastAnswer term.now budget bytes.now (answer_of output)) }
{
    match read_problem(alloc, bytes) {
        Ok(problem) => problem_answer(alloc, &problem, term, budget, watch),
        Err(fault) => refuse(alloc, fault),
    }
}

// The answer to a problem: it is refused at its first application.
fn problem_answer<X: Watch>(
    alloc: Global,
    problem: &Problem,
    term: &[u8],
    budget: u64,
    watch: &mut X,
) -> Result<Output, Memory>
    requires well_formed { IsWellFormed problem.now }
    requires pure { problem.now.first_application ≡ None → IsPure problem.now }
    requires budget { budget < 2 ^ 32 }
    ensures { IfOk result (λ output. AnswersPure (AnswersObjective term.now budget) problem.now (answer_of output)) }
{
    match problem.first_application {
        Some(at) => refused_at(alloc, b"Impure", at),
        None => pure_answer(alloc, problem, term, budget, watch),
    }
}

// The answer to a problem without applications: it is refused where the text is no term of its existential constants.
fn pure_answer<X: Watch>(
    alloc: Global,
    problem: &Problem,
    text: &[u8],
    budget: u64,
    watch: &mut X,
) -> Result<Output, Memory>
    requires well_formed { IsWellFormed problem.now }
    requires pure { IsPure problem.now }
    requires budget { budget < 2 ^ 32 }
    ensures { IfOk result (λ output. AnswersObjective text.now budget problem.now (answer_of output)) }
{
    match objective(alloc, problem, text)? {
        Some(term) => objective_answer(alloc, problem, &term, budget, watch),
        None => refused(alloc, b"Objective"),
    }
}

// The answer to a problem and a term: the encoding comes first.
fn objective_answer<X: Watch>(
    alloc: Global,
    problem: &Problem,
    term: &TypedTerm,
    budget: u64,
    watch: &mut X,
) -> Result<Output, Memory>
    requires well_formed { IsWellFormed problem.now }
    requires pure { IsPure problem.now }
    requires plain { IsPlain (expression term.now) }
    requires ranged { IsPlainRanged (expression term.now) }
    requires budget { budget < 2 ^ 32 }
    ensures { IfOk result (λ output. AnswersEncoded (AnswersLeast budget (expression term.now)) problem.now (answer_of output)) }
{
    match encode_problem(alloc, problem) {
        Ok(encoded) => encoded_answer(alloc, problem, &encoded, term, budget, watch),
        Err(refusal) => refuse_encoding(alloc, refusal),
    }
}

// The answer to an encoded problem and a term: next the term is computed.
fn encoded_answer<X: Watch>(
    alloc: Global,
    problem: &Problem,
    encoded: &Encoded,
    term: &TypedTerm,
    budget: u64,
    watch: &mut X,
) -> Result<Output, Memory>
    requires well_formed { IsWellFormed problem.now }
    requires pure { IsPure problem.now }
    requires encoded { IsEncoded problem.now encoded.now }
    requires plain { IsPlain (expression term.now) }
    requires ranged { IsPlainRanged (expression term.now) }
    requires budget { budget < 2 ^ 32 }
    ensures { IfOk result (λ output. AnswersLeast budget (expression term.now) problem.now (answer_of output)) }
{
    match linear_term(alloc, encoded.constants, term) {
        Ok(t) => constraint_answer(alloc, problem, encoded, &t, budget, watch),
        Err(StepFault::Steps) => unknown(alloc, b"steps"),
        Err(StepFault::Overflow(_)) => unknown(alloc, b"overflow"),
        Err(StepFault::Memory) => Err(Memory),
    }
}

// The answer to an encoded problem and a linear term: next comes the elimination.
fn constraint_answer<X: Watch>(
    alloc: Global,
    problem: &Problem,
    encoded: &Encoded,
    t: &Term,
    budget: u64,
    watch: &mut X,
) -> Result<Output, Memory>
    requires well_formed { IsWellFormed problem.now }
    requires pure { IsPure problem.now }
    requires encoded { IsEncoded problem.now encoded.now }
    requires over { IsOver (length problem.now.existentials) t.now }
    requires budget { budget < 2 ^ 32 }
    ensures { IfOk result (λ output. AnswersConstraint problem.now t.now (record { budget = budget; spent = 0 }) (answer_of output)) }
{
    let mut purse = Purse::new(budget);
    let eliminated = eliminate(alloc, &encoded.root, encoded.constants, &mut purse);
    watch.tell(Event::Ends {
        stage: Stage::Elimination,
        steps: purse.spent(),
    });
    match eliminated {
        Ok((constraint, _log)) => minimum_answer(alloc, problem, &constraint, t, &mut purse, watch),
        Err(fault) => cut_answer(alloc, &fault),
    }
}

// The answer over a constraint: last comes the search for the least value, with what the elimination left in the purse.
fn minimum_answer<X: Watch>(
    alloc: Global,
    problem: &Problem,
    d: &Dnf,
    t: &Term,
    purse: &mut Purse,
    watch: &mut X,
) -> Result<Output, Memory>
    requires well_formed { IsWellFormed problem.now }
    requires constraint { AreOver (length problem.now.existentials) d.now }
    requires over { IsOver (length problem.now.existentials) t.now }
    requires budget { purse.old.budget < 2 ^ 32 }
    ensures { IfOk result (λ output. AnswersMinimum problem.now t.now d.now purse.old (answer_of output)) }
{
    let names = problem.existentials.len() as u32;
    let found = least(alloc, d, names, t, purse);
    watch.tell(Event::Ends {
        stage: Stage::Least,
        steps: purse.spent(),
    });
    match found {
        Ok(found) => told(alloc, problem, &found),
        Err(fault) => cut_answer(alloc, &fault),
    }
}

// The answer where the budget ends or a number leaves the range.
fn cut_answer(alloc: Global, fault: &ElimFault) -> Result<Output, Memory>
    ensures { IfOk result (λ output. IsToldCut fault.now (answer_of output)) }
{
    match fault {
        ElimFault::Steps(_log) => unknown(alloc, b"steps"),
        ElimFault::Overflow(_log, _place) => unknown(alloc, b"overflow"),
        ElimFault::Memory => Err(Memory),
    }
}
