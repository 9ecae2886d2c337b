// Whether a formula is false in a model.

ghost use Rattle.formula.specs.Tree.{form};
ghost use Rattle.linear_term.specs.Linear as linear;
ghost use Rattle.model_check.specs.Judged.{SaysFalse};
ghost use Rattle.model_table.specs.Models.{meaning_of};
ghost use Rattle.std.specs.Prelude.{◌≡◌, map, IfOk};

use super::deciding::decide;
use base_budget::Purse;
use formula::Core;
use linear_term::Term;
use model_formulas::{Effort, Fault, expand, is_true, number};
use model_table::Model;
use sqlite_items::Items;
use std::alloc::Global;

/// The most nodes that an expansion may have.
const MOST_NODES: u64 = 2000000;

/// The integers as terms.
fn numbers(alloc: Global, xs: &[i128]) -> Result<Items<Term>, Fault>
    ensures { IfOk result (λ ts. ts ≡ map linear.number xs.now) }
{
    let mut out = Items::new(alloc);
    for i in 0..xs.len() {
        let t = number(alloc, xs[i])?;
        out.push(t)?;
    }
    Ok(out)
}

/// The same within an effort.
#[tactic(auto, using(crate::proofs::Numbers::judging))]
fn judged(
    alloc: Global,
    effort: &mut Effort,
    root: &Core,
    model: &Model,
    at: &[i128],
) -> Result<bool, Fault>
    ensures { IfOk result (λ b. SaysFalse b (meaning_of model.now) (form root.now) at.now) }
{
    let ts = numbers(alloc, at)?;
    let g = expand(alloc, effort, model, root, ts.as_slice(), 0)?;
    if is_true(&g) {
        return Ok(false);
    }
    if model_formulas::is_false(&g) {
        return Ok(true);
    }
    let b = decide(alloc, effort, &g)?;
    Ok(!b)
}

/// Whether the formula is false in the model at these integers; a name after them counts as 0. It is exact: where it answers
/// at all, true comes exactly where the formula is false, false exactly where it is true. It is cut where the budget ends, a
/// number leaves the range of coefficients, or the expansion has too many nodes.
pub fn is_false(
    alloc: Global,
    purse: &mut Purse,
    root: &Core,
    model: &Model,
    at: &[i128],
) -> Result<bool, Fault>
    ensures { IfOk result (λ b. SaysFalse b (meaning_of model.now) (form root.now) at.now) }
{
    let before = purse.budget().saturating_sub(purse.spent());
    let mut effort = Effort {
        steps: before,
        nodes: MOST_NODES,
    };
    let outcome = judged(alloc, &mut effort, root, model, at);
    purse.charge(before.saturating_sub(effort.steps))?;
    outcome
}
