// The answer with a clause proof.

ghost use Rattle.base_answers.specs.Answer.{answer_of, line};
ghost use Rattle.base_limits.specs.Limits.{most_budget};
ghost use Rattle.pri_typing.specs.WellFormed.{HasDistinctNames, HasIdentifiers, IsWellFormed};
ghost use Rattle.pri_problem.specs.Encoded.{IsEncoded};
ghost use Rattle.pri_problem.specs.Cuttable.{IsCuttable};
ghost use Rattle.job_clauses.specs.Judged.{IsClauseFile};
ghost use Rattle.job_decide.specs.Decided.{AnswersProved, IsLeftOpen, clause_part};
ghost use Rattle.job_solve.specs.Proved.{extended};
ghost use Rattle.std.specs.Prelude.{◌≡◌, ◌≤◌, IfOk};

use base_answers::{Output, ProofForm};
use base_budget::Purse;
use function_encoding::Encoded;
use job_solve::closed;
use linear_term::Memory;
use pri_typing::Problem;
use std::alloc::Global;

/// The answer that the problem is valid, with the lines of its `\interpolant` blocks on a purse with the whole budget, and with the
/// clause proof after it, where a proof is asked for.
pub fn proved(
    alloc: Global,
    problem: &Problem,
    encoded: &Encoded,
    text: &[u8],
    budget: u64,
    asked: Option<ProofForm>,
) -> Result<Output, Memory>
    requires well_formed { IsWellFormed problem.now }
    requires distinct { HasDistinctNames problem.now }
    requires identifiers { HasIdentifiers problem.now }
    requires cuts { IsCuttable problem.now }
    requires encoded { IsEncoded problem.now encoded.now }
    requires left_open { IsLeftOpen budget problem.now }
    requires proof { IsClauseFile problem.now text.now }
    requires budget { budget ≤ most_budget }
    ensures { IfOk result (λ output. AnswersProved asked budget problem.now (answer_of output)) }
{
    let mut purse = Purse::new(budget);
    let plain = closed(alloc, problem, &mut purse)?;
    with_clauses(plain, text, asked)
}

// The answer with the proof after it, where one is asked for.
fn with_clauses(plain: Output, proof: &[u8], asked: Option<ProofForm>) -> Result<Output, Memory>
    ensures { IfOk result (λ output. answer_of output ≡ extended (answer_of plain) (clause_part asked proof.now)) }
{
    match asked {
        Some(_) => {
            let Output { status, text } = plain;
            let mut whole = text;
            whole.extend_from_slice(b"proof:\n")?;
            whole.extend_from_slice(proof)?;
            Ok(Output {
                status,
                text: whole,
            })
        }
        None => Ok(plain),
    }
}
