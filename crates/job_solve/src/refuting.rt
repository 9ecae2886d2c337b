// The answer to a problem whose run ended saturated.

ghost use Rattle.base_answers.specs.Answer.{answer_of};
ghost use Rattle.countermodel.specs.Probes.{probe_values};
ghost use Rattle.form_encoding.specs.Problems.{problem_root};
ghost use Rattle.base_limits.specs.Limits.{branch_limit};
ghost use Rattle.model_trees.specs.Levels.{IsWithinLevels};
ghost use Rattle.model_trees.specs.Open.{IsSaturatedTree};
ghost use Rattle.pri_typing.specs.WellFormed.{IsWellFormed};
ghost use Rattle.pri_problem.specs.Encoded.{IsEncoded};
ghost use Rattle.proof_tree.specs.Views.{proof_of};
ghost use Rattle.countermodel.specs.Explaining.{IsCounterexample};
ghost use Rattle.job_solve.specs.Explained.{AnswersSaturated, refuted_answer};
ghost use Rattle.std.specs.Prelude.{◌≡◌, ◌<◌, ◌^◌, IfOk, Some, length};

use base_answers::status::INVALID;
use base_answers::{Output, say, unknown};
use base_budget::{Purse, StepFault};
use countermodel::{Counterexample, explain, probe};
use function_encoding::Encoded;
use linear_term::Memory;
use pri_printer::print_counterexample;
use pri_typing::Problem;
use proof_tree::Tree;
use std::alloc::Global;

/// The answer to a problem whose run ended saturated with this tree, and left the purse so: the values of its existential constants
/// nearest to 0 with a table and values of the universal ones at which it is false, found on the rest of the purse.
pub fn refuted(
    alloc: Global,
    problem: &Problem,
    encoded: &Encoded,
    tree: &Tree,
    purse: &mut Purse,
) -> Result<Output, Memory>
    requires well_formed { IsWellFormed problem.now }
    requires encoded { IsEncoded problem.now encoded.now }
    requires saturated { IsSaturatedTree (problem_root problem.now).value (length problem.now.existentials) (proof_of tree.now.root) }
    requires levels { IsWithinLevels branch_limit (proof_of tree.now.root) }
    requires budget { purse.old.budget < 2 ^ 32 }
    ensures { IfOk result (λ output. AnswersSaturated problem.now (proof_of tree.now.root) purse.old (answer_of output)) }
{
    let Some(values) = probe(alloc, problem)? else {
        return say(alloc, INVALID, b"INVALID");
    };
    match explain(alloc, problem, encoded, tree, values.as_slice(), purse) {
        Ok(found) => counterexample(alloc, problem, values.as_slice(), &found),
        Err(StepFault::Steps) => unknown(alloc, b"steps"),
        Err(StepFault::Overflow(_)) => unknown(alloc, b"overflow"),
        Err(StepFault::Memory) => Err(Memory),
    }
}

// The answer with a counterexample at these values of the existential constants.
fn counterexample(
    alloc: Global,
    problem: &Problem,
    values: &[i128],
    found: &Counterexample,
) -> Result<Output, Memory>
    requires values { length values.now ≡ length problem.now.existentials }
    requires is { IsCounterexample problem.now values.now (found.now.table, found.now.universals) }
    ensures { IfOk result (λ output. answer_of output ≡ refuted_answer problem.now values.now (found.now.table, found.now.universals)) }
{
    let lines = print_counterexample(
        alloc,
        problem,
        values,
        found.universals.as_slice(),
        &found.table,
    )?;
    let mut text = Vec::from_slice(alloc, b"INVALID\n")?;
    text.extend_from_slice(lines.as_slice())?;
    Ok(Output {
        status: INVALID,
        text,
    })
}
