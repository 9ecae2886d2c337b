// The answer to an encoded problem, by the canonical run.

ghost use Rattle.base_answers.specs.Answer.{answer_of};
ghost use Rattle.base_limits.specs.Limits.{most_budget};
ghost use Rattle.pri_typing.specs.WellFormed.{HasDistinctNames, HasIdentifiers, IsWellFormed};
ghost use Rattle.pri_problem.specs.Encoded.{IsEncoded};
ghost use Rattle.pri_problem.specs.Cuttable.{IsCuttable};
ghost use Rattle.job_solve.specs.Proved.{AnswersRunAs};
ghost use Rattle.std.specs.Prelude.{◌≤◌, IfOk};

use crate::running::{Course, run_within};
use crate::telling::cause;
use base_answers::{Output, ProofForm, unknown};
use base_watch::Watch;
use function_encoding::Encoded;
use linear_term::Memory;
use pri_typing::Problem;
use std::alloc::Global;

/// The answer to an encoded problem: it tells how the canonical run ends that has this budget. Trees are kept where a proof is asked
/// for.
pub fn run_answer<X: Watch>(
    alloc: Global,
    problem: &Problem,
    encoded: &Encoded,
    budget: u64,
    asked: Option<ProofForm>,
    watch: &mut X,
) -> Result<Output, Memory>
    requires well_formed { IsWellFormed problem.now }
    requires distinct { HasDistinctNames problem.now }
    requires identifiers { HasIdentifiers problem.now }
    requires cuts { IsCuttable problem.now }
    requires encoded { IsEncoded problem.now encoded.now }
    requires budget { budget ≤ most_budget }
    ensures { IfOk result (λ output. AnswersRunAs asked budget problem.now (answer_of output)) }
{
    match run_within(alloc, problem, encoded, budget, budget, asked, watch)? {
        Course::Told(output) => Ok(output),
        Course::Cut(why) => unknown(alloc, cause(&why)),
    }
}
