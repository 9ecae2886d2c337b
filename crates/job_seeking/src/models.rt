// Values for a problem with predicates and functions, by models: values at which the formula is true in the models so far are tried, and
// where it is false in another model, that is one more. Nothing rests on them: what they find is judged above.

ghost use Rattle.formula.specs.Form.{IsFormOver};
ghost use Rattle.formula.specs.Tree.{form};
ghost use Rattle.linear_term.specs.Linear.{IsOver};
ghost use Rattle.std.specs.List.{AllByRecursion};
ghost use Rattle.std.specs.Prelude.{◌≤◌, ◌<◌, ◌^◌, IfOk};

use crate::closing::{for_all, negated};
use crate::over::form_over;
use base_watch::Watch;
use cdcl_solver::{Found, search_at};
use formula::Core;
use linear_term::{Memory, Term};
use model_formulas::{Effort, Fault, expand};
use model_table::Model;
use sqlite_items::Items;
use std::alloc::Global;

// The most models.
const MOST_MODELS: u32 = 50;

// The most nodes of the formulas in the models.
const MOST_NODES: u64 = 1_000_000;

/// The text of a clause proof of the root at some values of its names, if such values are found within these steps. The root is over this
/// many names, and its first for-alls are this many universal constants.
pub(crate) fn proof_by_models<X: Watch>(
    alloc: Global,
    root: &Core,
    names: u32,
    universals: u32,
    steps: u64,
    watch: &mut X,
) -> Result<Option<Vec<u8>>, Memory>
    requires over { IsFormOver names (form root.now) }
{
    let mut effort = Effort {
        steps,
        nodes: MOST_NODES,
    };
    let mut denials = Items::new(alloc);
    let mut model = Model::empty(alloc);
    for _ in 0..MOST_MODELS {
        match denial_in(alloc, root, &model, names, &mut effort)? {
            Some(denial) => denials.push(denial)?,
            None => return Ok(None),
        }
        let Some(values) = values_against(alloc, &denials, names, &mut effort.steps, watch)? else {
            return Ok(None);
        };
        if values.len() != names as usize {
            return Ok(None);
        }
        let found = search_at(
            alloc,
            root,
            values.as_slice(),
            universals,
            &mut effort.steps,
            watch,
        )?;
        match found {
            Found::Proof(text) => return Ok(Some(text)),
            Found::Model(next, _) => model = next,
            Found::Nothing => return Ok(None),
        }
    }
    Ok(None)
}

// The formula over the names that says that the root is false in the model.
fn denial_in(
    alloc: Global,
    root: &Core,
    model: &Model,
    names: u32,
    effort: &mut Effort,
) -> Result<Option<Core>, Memory> {
    let terms = all_names(alloc, names)?;
    match expand(alloc, effort, model, root, terms.as_slice(), names) {
        Ok(there) => negated(alloc, &there),
        Err(Fault::Memory) => Err(Memory),
        Err(_) => Ok(None),
    }
}

// The names as terms.
fn all_names(alloc: Global, names: u32) -> Result<Items<Term>, Memory>
    ensures { IfOk result (AllByRecursion (IsOver names)) }
{
    let mut out = Items::new(alloc);
    for n in 0..names {
        out.push(Term::name(alloc, n))?;
    }
    Ok(out)
}

// Values at which none of the denials is true, if these are found.
fn values_against<X: Watch>(
    alloc: Global,
    denials: &Items<Core>,
    names: u32,
    steps: &mut u64,
    watch: &mut X,
) -> Result<Option<Vec<i128>>, Memory> {
    let mut members = Items::new(alloc);
    for denial in denials.as_slice() {
        members.push(denial.copy(alloc)?)?;
    }
    let claim = for_all(alloc, Core::Or(members), names)?;
    if !form_over(0, &claim) {
        return Ok(None);
    }
    Ok(match search_at(alloc, &claim, &[], names, steps, watch)? {
        Found::Model(_, values) => Some(values),
        Found::Proof(_) => None,
        Found::Nothing => None,
    })
}
