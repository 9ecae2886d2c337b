// The clause search on a problem, and the judgement of what it finds.

ghost use Rattle.job_clauses.specs.Judged.{IsClauseFile, IsJudged};
ghost use Rattle.pri_problem.specs.Encoded.{IsEncoded};
ghost use Rattle.pri_typing.specs.WellFormed.{IsWellFormed};
ghost use Rattle.std.specs.Prelude.{◌≡◌, [], true, IfOk};

use base_budget::Purse;
use base_watch::Watch;
use cdcl_solver::{Found, search};
use clause_file::{ClauseFault, check_clauses};
use function_encoding::Encoded;
use linear_term::Memory;
use model_formulas::Fault;
use model_refuting::is_counterexample;
use model_table::Model;
use pri_typing::Problem;
use proof_file::body;
use std::alloc::Global;

// How many steps of the clause search there are for each step of a budget: they are shorter than those of the canonical run.
const RATE: u64 = 4;

// A brief search has one part in this many of a budget.
const BRIEF: u64 = 20;

/// What the clause search found, and its judge accepted.
#[derive(Drop)]
pub enum Judged {
    /// The text of a clause proof of the problem.
    Proof(Vec<u8>),
    /// A finite model, and values of the universal constants, at which the problem's formula is false.
    Refuted { model: Model, universals: Vec<i128> },
    /// Nothing within the budget.
    Nothing,
}

/// Searches a clause proof of the problem, which has no existential constants, or a model that refutes it, with this budget. A proof is
/// checked as one in a file, and a model is evaluated, with this budget too. The one error is running out of memory.
pub fn search_judged<X: Watch>(
    alloc: Global,
    problem: &Problem,
    encoded: &Encoded,
    budget: u64,
    watch: &mut X,
) -> Result<Judged, Memory>
    requires well_formed { IsWellFormed problem.now }
    requires alone { problem.now.existentials ≡ [] }
    requires encoded { IsEncoded problem.now encoded.now }
    ensures { IfOk result (IsJudged problem.now) }
{
    let universals = problem.universals.len() as u32;
    match search(
        alloc,
        &encoded.root,
        universals,
        budget.saturating_mul(RATE),
        watch,
    )? {
        Found::Proof(text) => proof(alloc, problem, encoded, text),
        Found::Model(model, universals) => refuted(
            alloc, problem, encoded, model, universals, budget,
        ),
        Found::Nothing => Ok(Judged::Nothing),
    }
}

/// The same with a small part of the budget, as a first try.
pub fn search_briefly<X: Watch>(
    alloc: Global,
    problem: &Problem,
    encoded: &Encoded,
    budget: u64,
    watch: &mut X,
) -> Result<Judged, Memory>
    requires well_formed { IsWellFormed problem.now }
    requires alone { problem.now.existentials ≡ [] }
    requires encoded { IsEncoded problem.now encoded.now }
    ensures { IfOk result (IsJudged problem.now) }
{
    search_judged(alloc, problem, encoded, budget / BRIEF, watch)
}

// The proof, if the check accepts it.
fn proof(
    alloc: Global,
    problem: &Problem,
    encoded: &Encoded,
    text: Vec<u8>,
) -> Result<Judged, Memory>
    requires well_formed { IsWellFormed problem.now }
    requires alone { problem.now.existentials ≡ [] }
    requires encoded { IsEncoded problem.now encoded.now }
    ensures { IfOk result (IsJudged problem.now) }
{
    if is_proof(alloc, problem, encoded, text.as_slice())? {
        return Ok(Judged::Proof(text));
    }
    Ok(Judged::Nothing)
}

// The model with its values, if the formula is false there. An evaluation that is cut says no.
fn refuted(
    alloc: Global,
    problem: &Problem,
    encoded: &Encoded,
    model: Model,
    universals: Vec<i128>,
    budget: u64,
) -> Result<Judged, Memory>
    requires well_formed { IsWellFormed problem.now }
    requires encoded { IsEncoded problem.now encoded.now }
    ensures { IfOk result (IsJudged problem.now) }
{
    let mut purse = Purse::new(budget);
    let values = universals.as_slice();
    match is_counterexample(alloc, problem, encoded, &model, values, &mut purse) {
        Ok(true) => Ok(Judged::Refuted { model, universals }),
        Ok(false) => Ok(Judged::Nothing),
        Err(Fault::Memory) => Err(Memory),
        Err(_) => Ok(Judged::Nothing),
    }
}

// Whether the text is a clause proof of the problem, by the check of proofs in a file, and nothing else. A check that is cut says no.
fn is_proof(
    alloc: Global,
    problem: &Problem,
    encoded: &Encoded,
    text: &[u8],
) -> Result<bool, Memory>
    requires well_formed { IsWellFormed problem.now }
    requires alone { problem.now.existentials ≡ [] }
    requires encoded { IsEncoded problem.now encoded.now }
    ensures { IfOk result (λ is. is ≡ true → IsClauseFile problem.now text.now) }
{
    if body(text) != text {
        return Ok(false);
    }
    match check_clauses(alloc, &encoded.root, encoded.constants, text) {
        Ok(_values) => Ok(true),
        Err(ClauseFault::Memory) => Err(Memory),
        Err(_) => Ok(false),
    }
}
