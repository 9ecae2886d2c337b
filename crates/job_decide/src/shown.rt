// The values that refute a problem without predicates and functions, shown after an INVALID of the canonical run.

ghost use Rattle.base_answers.specs.Answer.{answer_of, line, says_line};
ghost use Rattle.base_limits.specs.Limits.{most_budget};
ghost use Rattle.pri_problem.specs.Cuttable.{IsCuttable};
ghost use Rattle.pri_typing.specs.WellFormed.{IsWellFormed};
ghost use Rattle.job_decide.specs.Shown.{AnswersShown, AreToShow};
ghost use Rattle.job_solve.specs.Proved.{AnswersRunAs, extended};
ghost use Rattle.job_values.specs.Values.{no_model};
ghost use Rattle.model_printer.specs.Models.{model_text};
ghost use Rattle.std.specs.Prelude.{◌≡◌, ◌≤◌, ◌++◌, List, ℕ, codes, length, true, false, IfOk};

use base_answers::status::INVALID;
use base_answers::{Output, ProofForm};
use job_values::false_values;
use linear_term::Memory;
use model_printer::print_model;
use model_table::Model;
use pri_typing::Problem;
use sqlite_items::Items;
use std::alloc::Global;

// How many bytes the line `INVALID` has.
const FIRST_LINE: usize = 8;

/// The answer of the canonical run, with values that refute the problem after its first line, where they are to be shown and the run of
/// the negated problem finds them.
pub fn shown(
    alloc: Global,
    problem: &Problem,
    output: Output,
    budget: u64,
    asked: Option<ProofForm>,
    shows: bool,
) -> Result<Output, Memory>
    requires well_formed { IsWellFormed problem.now }
    requires cuts { IsCuttable problem.now }
    requires budget { budget ≤ most_budget }
    requires run { AnswersRunAs asked budget problem.now (answer_of output) }
    ensures { IfOk result (λ output. AnswersShown shows asked budget problem.now (answer_of output)) }
{
    if !are_to_show(problem, &output, shows) {
        return Ok(output);
    }
    let found = false_values(alloc, problem, budget)?;
    match found {
        Some(values) => with_values(alloc, problem, &output, values.as_slice()),
        None => Ok(output),
    }
}

// Whether values are to be shown at an answer.
fn are_to_show(problem: &Problem, output: &Output, shows: bool) -> bool
    ensures yes { result ≡ true → AreToShow shows problem.now (answer_of output.now) }
    ensures no { result ≡ false → ¬ (AreToShow shows problem.now (answer_of output.now)) }
{
    shows
        && output.status == INVALID
        && problem.existentials.is_empty()
        && problem.first_application.is_none()
}

// The answer INVALID, with these values after its first line.
fn with_values(
    alloc: Global,
    problem: &Problem,
    output: &Output,
    values: &[i128],
) -> Result<Output, Memory>
    requires values { length values.now ≡ length problem.now.universals }
    ensures { IfOk result (λ shown. (part : List ℕ) → output.now.text.items ≡ line (codes "INVALID") ++ part
        → answer_of shown ≡ extended (extended (says_line 1 (codes "INVALID")) (model_text problem.now values.now no_model)) part) }
{
    let model = Model {
        functions: Items::new(alloc),
        predicates: Items::new(alloc),
    };
    let lines = print_model(alloc, problem, values, &model)?;
    let mut text = Vec::from_slice(alloc, b"INVALID\n")?;
    text.extend_from_slice(lines.as_slice())?;
    text.extend_from_slice(behind(output.text.as_slice(), FIRST_LINE))?;
    Ok(Output {
        status: INVALID,
        text,
    })
}

// What stands after the first n bytes of a text.
fn behind(text: &[u8], n: usize) -> &[u8]
    ensures { (first part : List ℕ) → length first ≡ n → text.now ≡ first ++ part → result.now ≡ part }
{
    if n <= text.len() { &text[n..] } else { &[] }
}
