// The answer to a check, with a model where the script asks for one.

ghost use Rattle.base_limits.specs.Limits.{most_budget};
ghost use Rattle.pri_typing.specs.WellFormed.{IsWellFormed};
ghost use Rattle.job_clauses.specs.Judged.{IsJudged};
ghost use Rattle.job_smt.specs.Answers.{IsCheckAnswer, IsCheckedOutcome, IsModelShown};
ghost use Rattle.std.specs.Prelude.{◌≡◌, ◌≤◌, [], IfOk};

use crate::checking::{CheckAnswer, check};
use base_watch::Watch;
use function_encoding::EncodeRefusal;
use job_clauses::{Judged, search_judged};
use linear_term::Memory;
use pri_problem::encode_problem;
use pri_typing::Problem;
use smt_models::{Value, model_text, symbol_values};
use sqlite_items::Items;
use std::alloc::Global;

/// What is shown of a model: its text, and the values of the symbols without parameters.
#[derive(Drop)]
pub(crate) struct Shown {
    pub(crate) text: Items<u8>,
    pub(crate) values: Items<Value>,
}

/// The answer to a check, and what is shown of a model, if one was found.
#[derive(Drop)]
pub(crate) struct Checked {
    pub(crate) answer: CheckAnswer,
    pub(crate) model: Option<Shown>,
}

/// The answer to the check whose problem this is, with a model if one is asked for. Returns None if the encoding of the problem is too
/// large. The one error is running out of memory.
pub(crate) fn check_with_model<X: Watch>(
    alloc: Global,
    p: &Problem,
    budget: u64,
    asks: bool,
    watch: &mut X,
) -> Result<Option<Checked>, Memory>
    requires formed { IsWellFormed p.now }
    requires alone { p.now.existentials ≡ [] }
    requires budget { budget ≤ most_budget }
    ensures { IfOk result (IsCheckedOutcome budget p.now) }
{
    match check(alloc, p, budget, watch)? {
        Some(answer) => with_model(alloc, p, answer, budget, asks, watch),
        None => Ok(None),
    }
}

// This answer, with a model beside it if one is asked for.
#[tactic(auto, using(crate::proofs::Beside::both))]
fn with_model<X: Watch>(
    alloc: Global,
    p: &Problem,
    answer: CheckAnswer,
    budget: u64,
    asks: bool,
    watch: &mut X,
) -> Result<Option<Checked>, Memory>
    requires formed { IsWellFormed p.now }
    requires alone { p.now.existentials ≡ [] }
    requires answer { IsCheckAnswer budget p.now answer }
    ensures { IfOk result (IsCheckedOutcome budget p.now) }
{
    let model = model_beside(alloc, p, answer, budget, asks, watch)?;
    Ok(Some(Checked { answer, model }))
}

// A model beside this answer, if one is asked for.
fn model_beside<X: Watch>(
    alloc: Global,
    p: &Problem,
    answer: CheckAnswer,
    budget: u64,
    asks: bool,
    watch: &mut X,
) -> Result<Option<Shown>, Memory>
    requires formed { IsWellFormed p.now }
    requires alone { p.now.existentials ≡ [] }
    ensures { IfOk result (IsModelShown p.now) }
{
    match answer {
        CheckAnswer::Sat if asks => found_model(alloc, p, budget, watch),
        CheckAnswer::Sat | CheckAnswer::Unsat | CheckAnswer::Unknown(_) => Ok(None),
    }
}

// A model that the clause search finds with this budget. The canonical run has none, so the search is a new one.
fn found_model<X: Watch>(
    alloc: Global,
    p: &Problem,
    budget: u64,
    watch: &mut X,
) -> Result<Option<Shown>, Memory>
    requires formed { IsWellFormed p.now }
    requires alone { p.now.existentials ≡ [] }
    ensures { IfOk result (IsModelShown p.now) }
{
    match encode_problem(alloc, p) {
        Ok(encoded) => {
            let judged = search_judged(alloc, p, &encoded, budget, watch)?;
            shown_of(alloc, p, &judged)
        }
        Err(EncodeRefusal::Large) | Err(EncodeRefusal::Overflow(_)) => Ok(None),
        Err(EncodeRefusal::Memory) => Err(Memory),
    }
}

// What is shown of the model that was found, if one was.
fn shown_of(alloc: Global, p: &Problem, judged: &Judged) -> Result<Option<Shown>, Memory>
    requires { IsJudged p.now judged.now }
    ensures { IfOk result (IsModelShown p.now) }
{
    match judged {
        Judged::Refuted { model, universals } => {
            let text = model_text(alloc, p, model, universals.as_slice())?;
            Ok(Some(Shown {
                text: Items::from_slice(alloc, text.as_slice())?,
                values: symbol_values(alloc, p, model, universals.as_slice())?,
            }))
        }
        Judged::Proof(_) | Judged::Nothing => Ok(None),
    }
}
