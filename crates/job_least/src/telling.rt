// How what is found of the least value is told.

ghost use Rattle.base_answers.specs.Answer.{answer_of};
ghost use Rattle.job_least.specs.Leasts.{HasLeastValues, least_text, minimum_answer, values_line};
ghost use Rattle.optimiser.specs.Answers.{minimum_of};
ghost use Rattle.std.specs.Prelude.{◌≡◌, codes, IfOk, length};

use base_answers::status::{INVALID, VALID};
use base_answers::{Output, say};
use linear_term::Memory;
use optimiser::Least;
use pri_printer::print_solution;
use pri_typing::Problem;
use std::alloc::Global;

/// The answer with what is found of the least value.
pub(crate) fn told(alloc: Global, problem: &Problem, found: &Least) -> Result<Output, Memory>
    requires { HasLeastValues problem.now (minimum_of found.now) }
    ensures { IfOk result (λ output. answer_of output ≡ minimum_answer problem.now (minimum_of found.now)) }
{
    match found {
        Least::At(k, values, _log) => least_value(alloc, problem, *k, values.as_slice()),
        Least::Unbounded(_log) => say(alloc, VALID, b"unbounded"),
        Least::None(_log) => say(alloc, INVALID, b"INVALID"),
    }
}

// The answer with a least value, and the best values there.
fn least_value(alloc: Global, problem: &Problem, k: i128, values: &[i128]) -> Result<Output, Memory>
    requires { length values.now ≡ length problem.now.existentials }
    ensures { IfOk result (λ output. answer_of output ≡ record { status = 0; text = least_text problem.now k values.now }) }
{
    let number = k.to_string(alloc)?;
    let best = values_line(alloc, problem, values)?;
    let mut text = Vec::from_slice(alloc, b"least: ")?;
    text.extend_from_slice(number.as_bytes())?;
    text.push(b'\n')?;
    text.extend_from_slice(best.as_slice())?;
    Ok(Output {
        status: VALID,
        text,
    })
}

// The line of the best values; there is none without existential constants.
#[tactic(auto, using(crate::proofs::Told::none_line, crate::proofs::Told::some_line))]
fn values_line(alloc: Global, problem: &Problem, values: &[i128]) -> Result<Vec<u8>, Memory>
    requires { length values.now ≡ length problem.now.existentials }
    ensures { IfOk result (λ text. text.items ≡ values_line problem.now problem.now.existentials values.now) }
{
    if problem.existentials.is_empty() {
        return Ok(Vec::new(alloc));
    }
    let solution = print_solution(alloc, problem, values)?;
    let mut text = Vec::from_slice(alloc, b"at: ")?;
    text.extend_from_slice(solution.as_slice())?;
    text.push(b'\n')?;
    Ok(text)
}
