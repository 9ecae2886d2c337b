// The clause search for values of the existential constants of a problem, and the judgement of what it finds.

ghost use Rattle.formula.specs.Tree.{form};
ghost use Rattle.job_seeking.specs.Sought.{IsSought, denial};
ghost use Rattle.pri_problem.specs.Cuttable.{IsCuttable};
ghost use Rattle.pri_problem.specs.Encoded.{IsEncoded};
ghost use Rattle.pri_typing.specs.Problems.{IsPure};
ghost use Rattle.pri_typing.specs.WellFormed.{IsWellFormed};
ghost use Rattle.std.specs.Prelude.{◌≡◌, IfOk};

use crate::denying::{denial_of, is_denied};
use crate::models::proof_by_models;
use base_watch::Watch;
use cdcl_solver::{Found, search_at};
use clause_file::{ClauseFault, check_clauses};
use formula::Core;
use function_encoding::Encoded;
use linear_term::Memory;
use pri_typing::Problem;
use proof_file::body;
use sqlite_items::Items;
use std::alloc::Global;

// How many steps of the clause search there are for each step of a budget: they are shorter than those of the canonical run.
const RATE: u64 = 4;

/// What the clause search found, and its judge accepted.
#[derive(Drop)]
pub enum Sought {
    /// Values of the existential constants, and the text of a clause proof that the problem holds there.
    Values(Items<i128>, Vec<u8>),
    /// That the problem holds at no values.
    Nowhere,
    /// Nothing within the budget.
    Nothing,
}

/// Searches values of the existential constants with a clause proof that the problem holds there, or, where it has neither predicates
/// nor functions, a clause proof that it holds at none, with this budget. What is found is checked as a proof in a file. The one error is
/// running out of memory.
pub fn search_values<X: Watch>(
    alloc: Global,
    problem: &Problem,
    encoded: &Encoded,
    budget: u64,
    watch: &mut X,
) -> Result<Sought, Memory>
    requires well_formed { IsWellFormed problem.now }
    requires cuts { IsCuttable problem.now }
    requires encoded { IsEncoded problem.now encoded.now }
    ensures { IfOk result (IsSought problem.now) }
{
    let steps = budget.saturating_mul(RATE);
    if problem.first_application.is_none() {
        return by_denial(alloc, problem, encoded, steps, watch);
    }
    let universals = problem.universals.len() as u32;
    match proof_by_models(
        alloc,
        &encoded.root,
        encoded.constants,
        universals,
        steps,
        watch,
    )? {
        Some(text) => shown(alloc, problem, encoded, text),
        None => Ok(Sought::Nothing),
    }
}

// What the search finds of the formula that says that the root is false at all integers, judged.
fn by_denial<X: Watch>(
    alloc: Global,
    problem: &Problem,
    encoded: &Encoded,
    steps: u64,
    watch: &mut X,
) -> Result<Sought, Memory>
    requires well_formed { IsWellFormed problem.now }
    requires pure { IsPure problem.now }
    requires encoded { IsEncoded problem.now encoded.now }
    ensures { IfOk result (IsSought problem.now) }
{
    let Some(denial) = denial_of(alloc, problem, encoded)? else {
        return Ok(Sought::Nothing);
    };
    let mut left = steps;
    match search_at(alloc, &denial, &[], encoded.constants, &mut left, watch)? {
        Found::Proof(text) => nowhere(alloc, problem, encoded, &denial, text.as_slice()),
        Found::Model(_, values) => at_values(
            alloc,
            problem,
            encoded,
            values.as_slice(),
            &mut left,
            watch,
        ),
        Found::Nothing => Ok(Sought::Nothing),
    }
}

// That the problem holds nowhere, if the check accepts the proof of that. A check that is cut says no.
fn nowhere(
    alloc: Global,
    problem: &Problem,
    encoded: &Encoded,
    negation: &Core,
    text: &[u8],
) -> Result<Sought, Memory>
    requires well_formed { IsWellFormed problem.now }
    requires pure { IsPure problem.now }
    requires encoded { IsEncoded problem.now encoded.now }
    requires denial { form negation.now ≡ denial problem.now }
    ensures { IfOk result (IsSought problem.now) }
{
    if is_denied(alloc, problem, encoded, negation, text)? {
        return Ok(Sought::Nowhere);
    }
    Ok(Sought::Nothing)
}

// The values with a proof that the problem holds there, if the search finds one that the check accepts.
fn at_values<X: Watch>(
    alloc: Global,
    problem: &Problem,
    encoded: &Encoded,
    values: &[i128],
    steps: &mut u64,
    watch: &mut X,
) -> Result<Sought, Memory>
    requires well_formed { IsWellFormed problem.now }
    requires encoded { IsEncoded problem.now encoded.now }
    ensures { IfOk result (IsSought problem.now) }
{
    if values.len() != problem.existentials.len() {
        return Ok(Sought::Nothing);
    }
    let universals = problem.universals.len() as u32;
    match search_at(alloc, &encoded.root, values, universals, steps, watch)? {
        Found::Proof(text) => shown(alloc, problem, encoded, text),
        Found::Model(_, _) => Ok(Sought::Nothing),
        Found::Nothing => Ok(Sought::Nothing),
    }
}

// The proof with its values, if the check accepts it. A check that is cut says no.
fn shown(
    alloc: Global,
    problem: &Problem,
    encoded: &Encoded,
    text: Vec<u8>,
) -> Result<Sought, Memory>
    requires well_formed { IsWellFormed problem.now }
    requires encoded { IsEncoded problem.now encoded.now }
    ensures { IfOk result (IsSought problem.now) }
{
    if body(text.as_slice()) != text.as_slice() {
        return Ok(Sought::Nothing);
    }
    match check_clauses(alloc, &encoded.root, encoded.constants, text.as_slice()) {
        Ok(values) => Ok(Sought::Values(values, text)),
        Err(ClauseFault::Memory) => Err(Memory),
        Err(_) => Ok(Sought::Nothing),
    }
}
