// The answer with a counterexample by a model.

ghost use Rattle.base_answers.specs.Answer.{answer_of};
ghost use Rattle.job_decide.specs.Decided.{model_answer};
ghost use Rattle.std.specs.Prelude.{◌≡◌, length, IfOk};

use base_answers::status::INVALID;
use base_answers::{Output, say};
use linear_term::Memory;
use model_printer::print_model;
use model_table::Model;
use pri_typing::Problem;
use std::alloc::Global;

/// The answer that the problem is refuted by this model at these values of its universal constants: one word, where the problem has
/// neither predicates nor functions, and the values are not asked for.
pub fn refuted(
    alloc: Global,
    problem: &Problem,
    universals: &[i128],
    model: &Model,
    shows: bool,
) -> Result<Output, Memory>
    requires { length universals.now ≡ length problem.now.universals }
    ensures { IfOk result (λ output. answer_of output ≡ model_answer shows problem.now universals.now model.now) }
{
    if !shows && problem.first_application.is_none() {
        return say(alloc, INVALID, b"INVALID");
    }
    let lines = print_model(alloc, problem, universals, model)?;
    let mut text = Vec::from_slice(alloc, b"INVALID\n")?;
    text.extend_from_slice(lines.as_slice())?;
    Ok(Output {
        status: INVALID,
        text,
    })
}
