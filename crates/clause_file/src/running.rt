// The lines of a proof, read and checked one after another.

ghost use Rattle.clause_checker.specs.Views.{state_of};
ghost use Rattle.clause_file.specs.Answers.{IsCheckResult, IsFault};
ghost use Rattle.clause_file.specs.Courses.{Reaches};
ghost use Rattle.clause_file.specs.Costs.{HasPaid, check_price};
ghost use Rattle.clause_file.specs.Verdicts.{first_line};
ghost use Rattle.clause_proof.specs.declared.line.Line.{Line};
ghost use Rattle.clause_text.specs.declared.head.Head.{Head};
ghost use Rattle.formula.specs.Form.{Form};
ghost use Rattle.std.specs.Prelude.{◌≡◌, ◌+◌, ◌<◌, ◌≤◌, ◌++◌, ◌∷◌, [], ℕ, IfErr, IfOk, List, length};

use crate::fault::{ClauseFault, at_line, in_file};
use base_budget::Purse;
use clause_checker::{State, ends_empty, step};
use clause_marks::Marks;
use clause_text::read_line;
use std::alloc::Global;

/// Reads the next line, which has this number, and has the state follow it. Returns the text after the line. After a fault the
/// state is not to be used again.
fn run_line<'a, 'b>(
    alloc: Global,
    purse: &mut Purse,
    marks: &mut Marks,
    state: &mut State<'a>,
    file: &[u8],
    text: &'b [u8],
    number: u64,
) -> Result<&'b [u8], ClauseFault>
    requires some { 0 < length text.now }
    requires within { length text.now ≤ length file.now }
    ensures shorter { IfOk result (λ rest. length rest.now < length text.now) }
    ensures made { IfOk result (λ rest. (f : Form) (n : ℕ) (h : Head) (ls : List Line) → Reaches f n file.now h ls text.now (state_of state.old) → HasPaid purse.old h (check_price f n h ls)
        → (l : Line) × Reaches f n file.now h (ls ++ l ∷ []) rest.now (state_of state.new) × HasPaid purse.new h (check_price f n h (ls ++ l ∷ []))) }
    ensures fault { IfErr result (λ e. (f : Form) (n : ℕ) (h : Head) (ls : List Line) → Reaches f n file.now h ls text.now (state_of state.old) → HasPaid purse.old h (check_price f n h ls) → number ≡ first_line + length ls → IsFault f n file.now e) }
{
    match read_line(alloc, text) {
        Ok((line, rest)) => match step(alloc, purse, marks, state, &line) {
            Ok(()) => Ok(rest),
            Err(fault) => Err(at_line(fault, number)),
        },
        Err(refusal) => Err(in_file(file, refusal)),
    }
}

/// Reads and checks all lines of the text, the first of which is line 6, from the state at its start.
pub(crate) fn run_lines<'a>(
    alloc: Global,
    purse: &mut Purse,
    state: &mut State<'a>,
    file: &[u8],
    text: &[u8],
) -> Result<(), ClauseFault>
    requires within { length text.now ≤ length file.now }
    ensures { (f : Form) (n : ℕ) (h : Head) → Reaches f n file.now h [] text.now (state_of state.old) → HasPaid purse.old h (check_price f n h []) → IsCheckResult f n file.now h result }
{
    let mut marks = Marks::new(alloc);
    let mut rest = text;
    let mut number: u64 = 6;
    while !rest.is_empty() {
        rest = run_line(alloc, purse, &mut marks, state, file, rest, number)?;
        number += 1;
    }
    if ends_empty(state.clauses.as_slice()) {
        Ok(())
    } else {
        Err(ClauseFault::Line(number))
    }
}
