// How values are told.

ghost use Rattle.base_answers.specs.Answer.{answer_of};
ghost use Rattle.job_find.specs.Found.{found_answer, found_line, found_part};
ghost use Rattle.job_solve.specs.Proved.{extended};
ghost use Rattle.std.specs.Prelude.{◌≡◌, ◌++◌, length, IfOk};

use base_answers::Output;
use base_answers::status::VALID;
use linear_term::Memory;
use pri_printer::print_solution;
use pri_typing::Problem;
use std::alloc::Global;

/// The answer with these values of the existential constants, and after it the clause proof, where one is asked for.
pub(crate) fn found(
    alloc: Global,
    problem: &Problem,
    values: &[i128],
    proof: &[u8],
    proves: bool,
) -> Result<Output, Memory>
    requires { length values.now ≡ length problem.now.existentials }
    ensures { IfOk result (λ output. answer_of output ≡ extended (found_answer problem.now values.now) (found_part proves proof.now)) }
{
    let line = found_line(alloc, problem, values)?;
    let text = with_proof(line, proof, proves)?;
    Ok(Output {
        status: VALID,
        text,
    })
}

// The line with the values; that the problem is valid, where it has no existential constants.
#[tactic(auto, using(crate::proofs::Told::valid_line, crate::proofs::Told::values_line))]
fn found_line(alloc: Global, problem: &Problem, values: &[i128]) -> Result<Vec<u8>, Memory>
    requires { length values.now ≡ length problem.now.existentials }
    ensures { IfOk result (λ text. text.items ≡ found_line problem.now.existentials problem.now values.now) }
{
    if problem.existentials.is_empty() {
        let text = Vec::from_slice(alloc, b"VALID\n")?;
        return Ok(text);
    }
    let solution = print_solution(alloc, problem, values)?;
    let mut text = Vec::from_slice(alloc, b"solution: ")?;
    text.extend_from_slice(solution.as_slice())?;
    text.push(b'\n')?;
    Ok(text)
}

// A text, and after it the line `proof:` and the proof, where it is asked for.
#[tactic(auto, using(crate::proofs::Told::part_left_out, crate::proofs::Told::part_told))]
fn with_proof(text: Vec<u8>, proof: &[u8], proves: bool) -> Result<Vec<u8>, Memory>
    ensures { IfOk result (λ whole. whole.items ≡ text.items ++ found_part proves proof.now) }
{
    if !proves {
        return Ok(text);
    }
    let mut whole = text;
    whole.extend_from_slice(b"proof:\n")?;
    whole.extend_from_slice(proof)?;
    Ok(whole)
}
