// Predicates at terms: where they are true in a model.

ghost use Rattle.std.specs.Prelude.{◌≡◌, true, IfOk};
ghost use Rattle.formula.specs.Form.{values_of};
ghost use Rattle.formula.specs.Tree.{form};
ghost use Rattle.model_table.specs.Models.{truth_at, truth_in};
ghost use Rattle.model_formulas.specs.Expansions.{Tells};
ghost use Rattle.model_formulas.specs.Rows.{IsFirst};

use crate::atoms::{known, matches, truth};
use crate::connecting::{both, either};
use crate::effort::Effort;
use crate::fault::Fault;
use formula::{Core, dual};
use linear_term::Term;
use model_table::{Model, PredicateModel};
use sqlite_items::at;
use std::alloc::Global;

/// The truth of a row where `when` is true, else that of g.
#[tactic(auto, using(crate::proofs::Firsts::first))]
fn row_first(alloc: Global, when: Core, row: bool, g: Core) -> Result<Core, Fault>
    ensures { IfOk result (λ h. IsFirst (form when) row (form g) (form h)) }
{
    if row {
        return Ok(either(alloc, when, g)?);
    }
    let other = dual(alloc, &when)?;
    Ok(both(alloc, other, g)?)
}

/// Where a predicate is true at terms of which some are not known.
#[tactic(auto, using(crate::proofs::Firsts::turning))]
fn by_rows(
    alloc: Global,
    effort: &mut Effort,
    arguments: &[Term],
    predicate: &PredicateModel,
) -> Result<Core, Fault>
    ensures { IfOk result (λ g. Tells (form g) (λ e. truth_in predicate.now.rows predicate.now.default (values_of arguments.now e) ≡ true)) }
{
    let mut g = truth(alloc, predicate.default);
    let rows = predicate.rows.as_slice();
    for i in (0..rows.len()).rev() {
        let row = &rows[i];
        let when = matches(alloc, effort, arguments, row.at.as_slice())?;
        g = row_first(alloc, when, row.truth, g)?;
    }
    Ok(g)
}

/// Where a predicate is true at the terms.
#[tactic(auto, using(crate::proofs::Firsts::holding))]
pub fn predicate(
    alloc: Global,
    effort: &mut Effort,
    model: &Model,
    p: u32,
    arguments: &[Term],
) -> Result<Core, Fault>
    ensures { IfOk result (λ g. Tells (form g) (λ e. truth_at model.now.predicates p (values_of arguments.now e) ≡ true)) }
{
    match at(model.predicates.as_slice(), p as usize) {
        None => Ok(truth(alloc, false)),
        Some(predicate) => match known(alloc, arguments)? {
            Some(xs) => {
                let b = predicate.truth(xs.as_slice());
                Ok(truth(alloc, b))
            }
            None => by_rows(alloc, effort, arguments, predicate),
        },
    }
}
