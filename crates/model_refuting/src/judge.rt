// Whether a model and values are a counterexample.

ghost use Rattle.model_refuting.specs.Refuting.{IsModelCounterexample};
ghost use Rattle.pri_problem.specs.Encoded.{IsEncoded};
ghost use Rattle.pri_typing.specs.WellFormed.{IsWellFormed};
ghost use Rattle.std.specs.Bool.{Decides};
ghost use Rattle.std.specs.Prelude.{[], IfOk};

use super::below::body_of;
use super::shape::is_candidate;
use base_budget::Purse;
use function_encoding::Encoded;
use model_check::is_false;
use model_formulas::Fault;
use model_table::Model;
use pri_typing::Problem;
use std::alloc::Global;

/// Whether the model and these values of the universal constants are a counterexample to the problem; there is none to a problem
/// with existential constants. It is exact where it answers. It is cut where the purse ends, a number leaves the range, or the
/// expansion of the formula in the model has too many nodes.
#[tactic(auto, using(crate::proofs::Judged::judging))]
pub fn is_counterexample(
    alloc: Global,
    problem: &Problem,
    encoded: &Encoded,
    model: &Model,
    universals: &[i128],
    purse: &mut Purse,
) -> Result<bool, Fault>
    requires well_formed { IsWellFormed problem.now }
    requires encoded { IsEncoded problem.now encoded.now }
    ensures { IfOk result (λ b. Decides b (IsModelCounterexample problem.now [] model.now universals.now)) }
{
    if !is_candidate(problem, model, universals) {
        return Ok(false);
    }
    let Some(body) = body_of(problem, encoded) else {
        return Err(Fault::Room);
    };
    is_false(alloc, purse, body, model, universals)
}
