// The value of a function at terms: which values it has in a model, and where.

ghost use Rattle.std.specs.Prelude.{◌≡◌, ◌∷◌, [], ℤ, List, IfOk};
ghost use Rattle.linear_term.specs.Linear.{value_of};
ghost use Rattle.formula.specs.Form.{values_of};
ghost use Rattle.formula.specs.Tree.{form};
ghost use Rattle.model_table.specs.Models.{value_at, value_in};
ghost use Rattle.model_formulas.specs.Choices.{AreChoices, IsGuard, is_met};
ghost use Rattle.model_formulas.specs.Expansions.{Tells};

use crate::atoms::{equals, is_false, known, matches, truth};
use crate::connecting::{all, any, both, push_all, push_any};
use crate::effort::Effort;
use crate::fault::Fault;
use formula::{Core, dual};
use linear_term::{Memory, Term};
use model_table::{FunctionModel, Model, ValueEntry};
use sqlite_items::{Items, at};
use std::alloc::Global;

/// A value that a function has where the formula is true.
#[derive(Drop)]
pub struct Guard {
    pub when: Core,
    pub value: i128,
}

/// The value everywhere.
#[tactic(auto, using(crate::proofs::Chosen::singles))]
fn single(alloc: Global, value: i128) -> Result<Items<Guard>, Memory>
    ensures { IfOk result (λ gs. AreChoices gs (λ e. value)) }
{
    let when = truth(alloc, true);
    let mut out = Items::new(alloc);
    out.push(Guard { when, value })?;
    Ok(out)
}

/// Whether some row is at these integers.
fn is_met(rows: &[ValueEntry], xs: &[i128]) -> bool
    ensures { result ≡ is_met rows.now xs.now }
{
    for row in rows {
        if row.at.as_slice() == xs {
            return true;
        }
    }
    false
}

/// Where the arguments are those of a row that is after these others; None where an earlier row is for them, or none of
/// their values is.
#[tactic(auto, using(crate::proofs::Chosen::guarding))]
fn row_guard(
    alloc: Global,
    effort: &mut Effort,
    arguments: &[Term],
    before: &[ValueEntry],
    xs: &[i128],
) -> Result<Option<Core>, Fault>
    ensures { IfOk result (λ o. IsGuard arguments.now before.now xs.now o) }
{
    let when = matches(alloc, effort, arguments, xs)?;
    if is_false(&when) {
        return Ok(None);
    }
    effort.step(before.len() as u64)?;
    if is_met(before, xs) {
        return Ok(None);
    }
    Ok(Some(when))
}

/// The values of a function at terms of which some are not known: that of each row where the arguments are its own, and the
/// default apart from all rows.
#[tactic(auto, using(crate::proofs::Chosen::listing))]
fn by_rows(
    alloc: Global,
    effort: &mut Effort,
    arguments: &[Term],
    function: &FunctionModel,
) -> Result<Items<Guard>, Fault>
    ensures { IfOk result (λ gs. AreChoices gs (λ e. value_in function.now.rows function.now.default (values_of arguments.now e))) }
{
    let mut out = Items::new(alloc);
    let mut apart = Items::new(alloc);
    let rows = function.rows.as_slice();
    for i in 0..rows.len() {
        let row = &rows[i];
        let before = &rows[..i];
        let when = match row_guard(alloc, effort, arguments, before, row.at.as_slice())? {
            None => continue,
            Some(when) => when,
        };
        let other = dual(alloc, &when)?;
        push_all(&mut apart, other)?;
        let value = row.value;
        out.push(Guard { when, value })?;
    }
    out.push(Guard {
        when: all(apart),
        value: function.default,
    })?;
    Ok(out)
}

/// The values of a function at the terms.
#[tactic(auto, using(crate::proofs::Chosen::choosing))]
pub fn choices(
    alloc: Global,
    effort: &mut Effort,
    model: &Model,
    f: u32,
    arguments: &[Term],
) -> Result<Items<Guard>, Fault>
    ensures { IfOk result (λ gs. AreChoices gs (λ e. value_at model.now.functions f (values_of arguments.now e))) }
{
    match at(model.functions.as_slice(), f as usize) {
        None => Ok(single(alloc, 0)?),
        Some(function) => match known(alloc, arguments)? {
            Some(xs) => {
                let value = function.value(xs.as_slice());
                Ok(single(alloc, value)?)
            }
            None => by_rows(alloc, effort, arguments, function),
        },
    }
}

/// The value of a function that has these values is another than that of u.
pub fn differing(
    alloc: Global,
    effort: &mut Effort,
    guards: &[Guard],
    u: &Term,
) -> Result<Core, Fault>
    ensures { IfOk result (λ g. (V : List ℤ → ℤ) → AreChoices guards.now V → Tells (form g) (λ e. ¬ (V e ≡ value_of u.now e))) }
{
    let mut out = Items::new(alloc);
    for guard in guards {
        let same = equals(alloc, effort, u, guard.value)?;
        let other = dual(alloc, &same)?;
        let when = guard.when.copy(alloc)?;
        let g = both(alloc, when, other)?;
        push_any(&mut out, g)?;
    }
    Ok(any(out))
}
