// The truth of formulas without predicates, functions and free names.

ghost use Rattle.clause_set.specs.Literals.{dnf_truth};
ghost use Rattle.formula.specs.Form.{is_pure};
ghost use Rattle.formula.specs.Tree.{form};
ghost use Rattle.model_check.specs.Judged.{Judges};
ghost use Rattle.std.specs.Prelude.{◌≡◌, [], true, IfOk, IfSome};

use base_budget::Purse;
use clause_set::Dnf;
use formula::{Core, depth};
use model_formulas::{Effort, Fault};
use quant_elim::eliminate;
use std::alloc::Global;

/// The truth of a disjunction over no names, as far as it is seen: no clause is there, or an empty one.
#[tactic(auto, using(crate::proofs::Decided::seen))]
fn seen(d: &Dnf) -> Option<bool>
    ensures { IfSome result (λ b. b ≡ dnf_truth d.now []) }
{
    if d.len() == 0 {
        return Some(false);
    }
    for c in d.clauses() {
        if c.literals().is_empty() {
            return Some(true);
        }
    }
    None
}

/// Whether a formula without predicates, functions and free names is true.
#[tactic(auto, using(crate::proofs::Decided::decided))]
pub fn decide(alloc: Global, effort: &mut Effort, g: &Core) -> Result<bool, Fault>
    requires { is_pure (form g.now) ≡ true }
    ensures { IfOk result (λ b. Judges b (form g.now)) }
{
    if depth(g) == u32::MAX {
        return Err(Fault::Room);
    }
    let mut purse = Purse::new(effort.steps.min(4294967295));
    let outcome = eliminate(alloc, g, 0, &mut purse);
    effort.step(purse.spent())?;
    let (d, _log) = outcome?;
    match seen(&d) {
        Some(b) => Ok(b),
        None => Err(Fault::Room),
    }
}
