// The canonical run on a problem, within a limit of its budget.

ghost use Rattle.base_answers.specs.Answer.{answer_of};
ghost use Rattle.base_limits.specs.Limits.{most_budget};
ghost use Rattle.pri_typing.specs.WellFormed.{HasDistinctNames, HasIdentifiers, IsWellFormed};
ghost use Rattle.pri_problem.specs.Encoded.{IsEncoded};
ghost use Rattle.pri_problem.specs.Cuttable.{IsCuttable};
ghost use Rattle.job_solve.specs.Within.{RunsTo};
ghost use Rattle.std.specs.Prelude.{◌≡◌, ◌≤◌, ◌<◌, ◌^◌, length, IfOk, None};

use crate::proving::with_proof;
use crate::refuting::refuted;
use crate::telling::valid;
use base_answers::status::INVALID;
use base_answers::{Output, ProofForm, say};
use base_budget::Purse;
use base_watch::{Event, Stage, Watch};
use function_encoding::Encoded;
use job_parts::with_budget;
use linear_term::Memory;
use pri_typing::Problem;
use proof_tree::Why;
use search::{Decided, Outcome, decide, prove};
use std::alloc::Global;

/// What a run within a limit comes to.
#[derive(Drop)]
pub enum Course {
    /// It ended, and this is the answer of the run with the whole budget.
    Told(Output),
    /// It was cut.
    Cut(Why),
}

/// Runs the canonical run within the limit. Where it ends there, the answer is that of the run with the whole budget, with the
/// proof after it in the form that is asked for, if one is. Trees are kept where a proof is asked for.
pub fn run_within<X: Watch>(
    alloc: Global,
    problem: &Problem,
    encoded: &Encoded,
    limit: u64,
    budget: u64,
    asked: Option<ProofForm>,
    watch: &mut X,
) -> Result<Course, Memory>
    requires well_formed { IsWellFormed problem.now }
    requires distinct { HasDistinctNames problem.now }
    requires identifiers { HasIdentifiers problem.now }
    requires cuts { IsCuttable problem.now }
    requires encoded { IsEncoded problem.now encoded.now }
    requires limit { limit ≤ budget }
    requires budget { budget ≤ most_budget }
    ensures { IfOk result (RunsTo asked limit budget problem.now) }
{
    match asked {
        Some(_) => with_tree(alloc, problem, encoded, limit, budget, asked, watch),
        None => without_tree(alloc, problem, encoded, limit, budget, watch),
    }
}

// The same by a search that keeps its tree.
fn with_tree<X: Watch>(
    alloc: Global,
    problem: &Problem,
    encoded: &Encoded,
    limit: u64,
    budget: u64,
    asked: Option<ProofForm>,
    watch: &mut X,
) -> Result<Course, Memory>
    requires well_formed { IsWellFormed problem.now }
    requires distinct { HasDistinctNames problem.now }
    requires identifiers { HasIdentifiers problem.now }
    requires cuts { IsCuttable problem.now }
    requires encoded { IsEncoded problem.now encoded.now }
    requires limit { limit ≤ budget }
    requires budget { budget ≤ most_budget }
    ensures { IfOk result (RunsTo asked limit budget problem.now) }
{
    let mut part = Purse::new(limit);
    watch.tell(Event::Begins {
        stage: Stage::Canonical,
        budget: limit,
    });
    let outcome = prove(alloc, &encoded.root, encoded.constants, &mut part, watch)?;
    watch.tell(Event::Ends {
        stage: Stage::Canonical,
        steps: part.spent(),
    });
    let mut purse = with_budget(&part, budget);
    match outcome {
        Outcome::Valid {
            constraint,
            solution,
            tree,
        } => {
            let plain = valid(alloc, problem, &constraint, solution.as_slice(), &mut purse)?;
            let output = with_proof(alloc, plain, &tree, asked)?;
            Ok(Course::Told(output))
        }
        Outcome::Invalid {
            constraint: _,
            tree,
        } => {
            let plain = say(alloc, INVALID, b"INVALID")?;
            let output = with_proof(alloc, plain, &tree, asked)?;
            Ok(Course::Told(output))
        }
        Outcome::Saturated {
            constraint: _,
            tree,
        } => {
            let output = refuted(alloc, problem, encoded, &tree, &mut purse)?;
            Ok(Course::Told(output))
        }
        Outcome::Unknown { why, run: _ } => Ok(Course::Cut(why)),
    }
}

// The same without a proof. Where the run ends saturated it is made once more, with its tree kept: a counterexample is read off the
// tree.
fn without_tree<X: Watch>(
    alloc: Global,
    problem: &Problem,
    encoded: &Encoded,
    limit: u64,
    budget: u64,
    watch: &mut X,
) -> Result<Course, Memory>
    requires well_formed { IsWellFormed problem.now }
    requires distinct { HasDistinctNames problem.now }
    requires identifiers { HasIdentifiers problem.now }
    requires cuts { IsCuttable problem.now }
    requires encoded { IsEncoded problem.now encoded.now }
    requires limit { limit ≤ budget }
    requires budget { budget ≤ most_budget }
    ensures { IfOk result (RunsTo None limit budget problem.now) }
{
    let mut part = Purse::new(limit);
    watch.tell(Event::Begins {
        stage: Stage::Canonical,
        budget: limit,
    });
    let decided = decide(alloc, &encoded.root, encoded.constants, &mut part, watch)?;
    watch.tell(Event::Ends {
        stage: Stage::Canonical,
        steps: part.spent(),
    });
    let mut purse = with_budget(&part, budget);
    match decided {
        Decided::Valid {
            constraint,
            solution,
        } => {
            let output = valid(alloc, problem, &constraint, solution.as_slice(), &mut purse)?;
            Ok(Course::Told(output))
        }
        Decided::Invalid { constraint: _ } => {
            let output = say(alloc, INVALID, b"INVALID")?;
            Ok(Course::Told(output))
        }
        Decided::Saturated { constraint: _ } => {
            with_tree(alloc, problem, encoded, limit, budget, None, watch)
        }
        Decided::Unknown { why, run: _ } => Ok(Course::Cut(why)),
    }
}
