// The answer to the size of a problem.

ghost use Rattle.base_answers.specs.Answer.{answer_of};
ghost use Rattle.base_limits.specs.Limits.{most_budget, most_count};
ghost use Rattle.job_decide.specs.Drilled.{IsDrilled, drill_answer, first_line};
ghost use Rattle.std.specs.Prelude.{◌≡◌, ◌++◌, ◌≤◌, IfOk, OnOk};

use crate::deciding::answer;
use base_answers::Output;
use base_watch::Watch;
use linear_term::Memory;
use problem_gen::drill;
use std::alloc::Global;

/// The answer of `drill` with a budget to this size, 1,000 at most.
pub fn drilled<X: Watch>(
    alloc: Global,
    count: u32,
    budget: u64,
    watch: &mut X,
) -> Result<Output, Memory>
    requires count { count ≤ most_count }
    requires budget { budget ≤ most_budget }
    ensures { IfOk result (λ output. IsDrilled budget count (answer_of output)) }
{
    let problem = drill(alloc, count)?;
    let solved = answer(alloc, problem.as_slice(), budget, None, false, false, watch)?;
    told(alloc, count, &solved)
}

// The first line of an answer after the size of its problem.
fn told(alloc: Global, count: u32, solved: &Output) -> Result<Output, Memory>
    ensures { IfOk result (λ output. answer_of output ≡ drill_answer count (answer_of solved.now)) }
{
    let size = count.to_string(alloc)?;
    let mut text = Vec::from_slice(alloc, b"drill ")?;
    text.extend_from_slice(size.as_bytes())?;
    text.extend_from_slice(b": ")?;
    put_first_line(solved.text.as_slice(), &mut text)?;
    Ok(Output {
        status: solved.status,
        text,
    })
}

// The first line of a text, after another text.
fn put_first_line(text: &[u8], out: &mut Vec<u8>) -> Result<(), Memory>
    ensures { OnOk result (out.new.items ≡ out.old.items ++ first_line text.now) }
{
    for c in text {
        out.push(*c)?;
        if *c == b'\n' {
            return Ok(());
        }
    }
    Ok(())
}
