// The model of a search with small numbers: each goes towards 0 while the root stays false.

use crate::modelling::{Refutation, refutation_of};
use crate::squeezing::squeezed;
use crate::target::Target;
use base_budget::Purse;
use cdcl_fuel::{Fault, Fuel, small};
use cdcl_models::{Judge, Model, RootTruth, shrink};
use formula::Core;
use model_check::is_false;
use model_formulas::Fault as Cut;
use model_table::Model as Table;
use std::alloc::Global;

/// The greatest gaps between numbers that are tried, and how often each number is made smaller.
const GAPS: [i128; 5] = [0, 1, 2, 4, 16];

const PASSES: u32 = 2;

/// What stands below a for-all.
fn below(f: &Core) -> Option<&Core> {
    match f {
        Core::Forall(body) => Some(body.get()),
        _ => None,
    }
}

/// The members of a disjunction before its last one; of another formula none.
fn before_last(f: &Core) -> &[Core] {
    match f {
        Core::Or(members) => match members.as_slice().split_last() {
            Some((_, others)) => others,
            None => &[],
        },
        _ => &[],
    }
}

/// The last member of a disjunction; another formula itself.
fn last_of(f: &Core) -> &Core {
    match f {
        Core::Or(members) => match members.as_slice().last() {
            Some(last) => last,
            None => f,
        },
        _ => f,
    }
}

/// Whether all of the formulas are false in the model at these values of their names.
fn are_false(
    alloc: Global,
    purse: &mut Purse,
    formulas: &[Core],
    model: &Table,
    values: &[i128],
) -> Result<bool, Cut> {
    for f in formulas {
        if !is_false(alloc, purse, f, model, values)? {
            return Ok(false);
        }
    }
    Ok(true)
}

/// Whether the formula over the names before `from` is false in the model where those and the names of its first for-alls have
/// these values. A for-all may stand in the last place of a disjunction, as that of a constant of a type with bounds does, whose
/// other members say that a value is none of the type. True comes only where the formula is false.
fn is_false_below(
    alloc: Global,
    purse: &mut Purse,
    f: &Core,
    model: &Table,
    values: &[i128],
    from: usize,
) -> Result<bool, Cut> {
    let around = values.get(..from).unwrap_or(values);
    if from >= values.len() {
        return is_false(alloc, purse, f, model, around);
    }
    let Some(body) = below(last_of(f)) else {
        return is_false(alloc, purse, f, model, around);
    };
    if !are_false(alloc, purse, before_last(f), model, around)? {
        return Ok(false);
    }
    is_false_below(alloc, purse, body, model, values, from + 1)
}

/// Judges models of a formula at values of its first for-alls, and keeps the last one at which it is false.
#[derive(Drop)]
struct Judgement<'a> {
    alloc: Global,
    target: Target<'a>,
    /// What sees at little cost that the root is true in many of the models that are no counterexample.
    truth: Option<RootTruth>,
    /// How many models were judged to be one.
    accepted: u64,
    best: Option<Refutation>,
}

/// Whether something sees that the root is true in the model.
fn is_seen_true(
    truth: &mut Option<RootTruth>,
    model: &Model,
    values: &[i128],
    fuel: &mut Fuel,
) -> Result<bool, Fault> {
    match truth {
        Some(truth) => truth.is_true(model, values, fuel),
        None => Ok(false),
    }
}

impl Judge for Judgement<'_> {
    fn is_false(&mut self, model: &Model, fuel: &mut Fuel) -> Result<bool, Fault> {
        if is_seen_true(&mut self.truth, model, self.target.values, fuel)? {
            return Ok(false);
        }
        let Target {
            root,
            values,
            universals,
        } = self.target;
        let found = refutation_of(self.alloc, model, universals)?;
        let mut at = Vec::from_slice(self.alloc, values)?;
        at.extend_from_slice(found.values.as_slice())?;
        let mut purse = Purse::new(fuel.left());
        let outcome = is_false_below(
            self.alloc,
            &mut purse,
            root,
            &found.model,
            at.as_slice(),
            values.len(),
        );
        fuel.spend(purse.spent())?;
        match outcome {
            Ok(true) => {
                self.best = Some(found);
                self.accepted = self.accepted.saturating_add(1);
                Ok(true)
            }
            Ok(false) => Ok(false),
            Err(Cut::Memory) => Err(Fault::Memory),
            Err(Cut::Steps) => Err(Fault::Steps),
            Err(_) => Ok(false),
        }
    }
}

/// Whether the root is seen to be false in the model, at the values of its first constants for the root's first for-alls.
pub(crate) fn judged(
    alloc: Global,
    target: Target<'_>,
    model: &Model,
    fuel: &mut Fuel,
) -> Result<bool, Fault> {
    let mut judgement = Judgement {
        alloc,
        target,
        truth: None,
        accepted: 0,
        best: None,
    };
    judgement.is_false(model, fuel)
}

/// The model with smaller gaps between its numbers, the least with which it stays one; else as it is.
fn with_gaps(
    alloc: Global,
    found: Model,
    judgement: &mut Judgement<'_>,
    fuel: &mut Fuel,
) -> Result<Model, Fault> {
    for gap in GAPS {
        let smaller = squeezed(alloc, &found, gap, fuel)?;
        if judgement.is_false(&smaller, fuel)? {
            return Ok(smaller);
        }
    }
    Ok(found)
}

/// Judges the model, and then smaller ones: first with smaller gaps, then number by number, and again where that made
/// one smaller, since one number may be in the way of another.
fn judge_all(
    alloc: Global,
    found: Model,
    judgement: &mut Judgement<'_>,
    steps: u64,
) -> Result<(), Fault> {
    let mut fuel = Fuel::new(steps);
    if !judgement.is_false(&found, &mut fuel)? {
        return Ok(());
    }
    let mut found = with_gaps(alloc, found, judgement, &mut fuel)?;
    for _ in 0..PASSES {
        let before = judgement.accepted;
        found = shrink(alloc, found, judgement, &mut fuel)?;
        if judgement.accepted == before {
            break;
        }
    }
    Ok(())
}

/// What sees that the root is true in a model; None where nothing does.
fn truth_of(alloc: Global, target: Target<'_>) -> Result<Option<RootTruth>, Fault> {
    let Ok(names) = small(target.values.len()) else {
        return Ok(None);
    };
    match RootTruth::new(alloc, target.root, names, target.universals) {
        Err(Fault::Memory) => Err(Fault::Memory),
        Err(_) => Ok(None),
        found => found,
    }
}

/// The model of a search with smaller numbers, looked for in at most `steps` steps, at values of the root's first for-alls. Where the
/// root is not seen to be false in the model, the model stays as it is.
pub(crate) fn shrunk(
    alloc: Global,
    target: Target<'_>,
    found: Model,
    steps: u64,
) -> Result<Refutation, Fault> {
    let mut found = found;
    found.constants.truncate(target.universals as usize);
    let first = refutation_of(alloc, &found, target.universals)?;
    let mut judgement = Judgement {
        alloc,
        target,
        truth: truth_of(alloc, target)?,
        accepted: 0,
        best: None,
    };
    if let Err(Fault::Memory) = judge_all(alloc, found, &mut judgement, steps) {
        return Err(Fault::Memory);
    }
    let Judgement { best, .. } = judgement;
    Ok(match best {
        Some(smaller) => smaller,
        None => first,
    })
}
