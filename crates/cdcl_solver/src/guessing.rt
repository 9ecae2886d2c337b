// Small models that are tried beside those of a search: where the tables of a round are no model, tables with smaller gaps between
// their numbers often are.

use crate::shrinking::judged;
use crate::squeezing::{near_constants, project, squeezed};
use crate::target::Target;
use cdcl_fuel::{Fault, Fuel};
use cdcl_models::{Defaults, Model};
use std::alloc::Global;

/// The greatest gaps between the numbers of the models that are tried.
const GAPS: [i128; 4] = [0, 1, 2, 10];

/// What functions and predicates are where the tables say nothing.
#[derive(Clone, Copy)]
enum Elsewhere {
    /// 0, and false.
    Zero,
    /// What they are most often.
    Frequent,
    /// What a function of one argument is at the next row below, and false.
    Below,
    /// The same, but predicates are what they are most often.
    BelowFrequent,
}

const ALL: [Elsewhere; 4] = [
    Elsewhere::Zero,
    Elsewhere::Frequent,
    Elsewhere::Below,
    Elsewhere::BelowFrequent,
];

/// The tables with smaller gaps, and something elsewhere.
fn candidate(
    alloc: Global,
    tables: &Model,
    gap: i128,
    elsewhere: Elsewhere,
    fuel: &mut Fuel,
) -> Result<Model, Fault> {
    let mut model = squeezed(alloc, tables, gap, fuel)?;
    match elsewhere {
        Elsewhere::Zero => model.set_defaults(Defaults::Zero, fuel)?,
        Elsewhere::Frequent => model.set_defaults(Defaults::AllFrequent, fuel)?,
        Elsewhere::Below => {
            model.set_defaults(Defaults::Frequent, fuel)?;
            project(alloc, &mut model, fuel)?;
        }
        Elsewhere::BelowFrequent => {
            model.set_defaults(Defaults::AllFrequent, fuel)?;
            project(alloc, &mut model, fuel)?;
        }
    }
    Ok(model)
}

/// The candidate, if the root is seen to be false in it. One that is cut is none.
fn tried(
    alloc: Global,
    target: Target<'_>,
    tables: &Model,
    gap: i128,
    elsewhere: Elsewhere,
    fuel: &mut Fuel,
) -> Result<Option<Model>, Fault> {
    let model = match candidate(alloc, tables, gap, elsewhere, fuel) {
        Ok(model) => model,
        Err(Fault::Memory) => return Err(Fault::Memory),
        Err(_) => return Ok(None),
    };
    match judged(alloc, target, &model, fuel) {
        Ok(true) => Ok(Some(model)),
        Err(Fault::Memory) => Err(Fault::Memory),
        _ => Ok(None),
    }
}

/// A small model in which the root is false, beside these tables. Each one that is tried takes at most `steps` steps.
fn beside(
    alloc: Global,
    target: Target<'_>,
    tables: &Model,
    steps: u64,
    fuel: &mut Fuel,
) -> Result<Option<Model>, Fault> {
    for gap in GAPS {
        for elsewhere in ALL {
            let mut share = fuel.share(steps);
            let found = tried(alloc, target, tables, gap, elsewhere, &mut share)?;
            fuel.give_back(share);
            if found.is_some() {
                return Ok(found);
            }
        }
    }
    Ok(None)
}

/// A small model in which the root is false, beside these tables, or those of their rows that are near the universal constants.
/// Each one that is tried takes at most `steps` steps.
pub(crate) fn guessed(
    alloc: Global,
    target: Target<'_>,
    tables: Model,
    steps: u64,
    fuel: &mut Fuel,
) -> Result<Option<Model>, Fault> {
    let mut tables = tables;
    tables.constants.truncate(target.universals as usize);
    let found = beside(alloc, target, &tables, steps, fuel)?;
    if found.is_some() {
        return Ok(found);
    }
    let fewer = near_constants(alloc, &tables, fuel)?;
    beside(alloc, target, &fewer, steps, fuel)
}
