// How it is told that a problem is valid, and what a search without an answer met.

ghost use Rattle.base_answers.specs.Answer.{answer_of};
ghost use Rattle.elim_laws.specs.Whole.{AreOver};
ghost use Rattle.pri_typing.specs.WellFormed.{HasDistinctNames, HasIdentifiers, IsWellFormed};
ghost use Rattle.form_encoding.specs.Problems.{is_large, problem_root};
ghost use Rattle.pri_typing.specs.Problems.{Holds};
ghost use Rattle.pri_problem.specs.Cuttable.{IsCuttable};
ghost use Rattle.job_solve.specs.Told.{AreClosedLines, IsValidTold, cause_text};
ghost use Rattle.std.specs.Prelude.{◌≡◌, ◌<◌, ◌^◌, [], false, length, IfOk};
ghost use Rattle.form_typed.specs.Truth.{Meaning};

use base_answers::Output;
use base_answers::status::VALID;
use base_budget::Purse;
use clause_set::Dnf;
use itp_lines::interpolant_lines;
use linear_term::Memory;
use pri_lines::valued_lines;
use pri_typing::Problem;
use proof_tree::Why;
use std::alloc::Global;

/// What a search without an answer is said to have met.
pub fn cause(why: &Why) -> &'static [u8]
    ensures { result.now ≡ cause_text why.now }
{
    match why {
        Why::Steps => b"steps",
        Why::Overflow(_) => b"overflow",
        Why::Branch => b"branch",
    }
}

/// The answer that a problem is valid, with a constraint and values of its existential constants where it has any; the lines of
/// `\interpolant` blocks have the rest of the purse.
pub fn valid(
    alloc: Global,
    problem: &Problem,
    constraint: &Dnf,
    solution: &[i128],
    purse: &mut Purse,
) -> Result<Output, Memory>
    requires well_formed { IsWellFormed problem.now }
    requires distinct { HasDistinctNames problem.now }
    requires identifiers { HasIdentifiers problem.now }
    requires cuts { IsCuttable problem.now }
    requires holds { problem.now.existentials ≡ [] → (w : Meaning) → Holds w problem.now [] }
    requires small { is_large (problem_root problem.now).value ≡ false }
    requires over { AreOver (length problem.now.existentials) constraint.now }
    requires values { length solution.now ≡ length problem.now.existentials }
    requires budget { purse.old.budget < 2 ^ 32 }
    ensures { IfOk result (λ output. IsValidTold problem.now purse.old constraint.now solution.now (answer_of output)) }
{
    if problem.existentials.is_empty() {
        return closed(alloc, problem, purse);
    }
    let text = valued_lines(alloc, b"VALID", problem, constraint, solution)?;
    Ok(Output {
        status: VALID,
        text,
    })
}

/// The answer that a problem without existential constants is valid, with the lines of its `\interpolant` blocks, which have the rest
/// of the purse.
pub fn closed(alloc: Global, problem: &Problem, purse: &mut Purse) -> Result<Output, Memory>
    requires well_formed { IsWellFormed problem.now }
    requires distinct { HasDistinctNames problem.now }
    requires identifiers { HasIdentifiers problem.now }
    requires cuts { IsCuttable problem.now }
    requires holds { (w : Meaning) → Holds w problem.now [] }
    requires small { is_large (problem_root problem.now).value ≡ false }
    requires budget { purse.old.budget < 2 ^ 32 }
    ensures { IfOk result (λ output. AreClosedLines problem.now purse.old (answer_of output)) }
{
    let lines = interpolant_lines(alloc, problem, purse)?;
    let mut text = Vec::from_slice(alloc, b"VALID\n")?;
    text.extend_from_slice(lines.as_slice())?;
    Ok(Output {
        status: VALID,
        text,
    })
}
