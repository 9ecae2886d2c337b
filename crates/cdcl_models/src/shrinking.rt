// Smaller numbers in a model: each goes towards 0, wherever it stands, while a judge still says that the model is one.

use crate::tables::Model;
use cdcl_fuel::{Fault, Fuel};
use cdcl_matching::RowSet;
use std::alloc::Global;

/// What says whether the root is false in a model.
pub trait Judge {
    /// Whether it is. An answer that is cut is `Ok(false)`.
    fn is_false(&mut self, model: &Model, fuel: &mut Fuel) -> Result<bool, Fault>;
}

/// How many candidates there are for each number.
const CANDIDATES: u32 = 8;

/// The model with smaller numbers, as far as the judge agrees within the budget. The model given is one.
pub fn shrink<J: Judge>(
    alloc: Global,
    model: Model,
    judge: &mut J,
    fuel: &mut Fuel,
) -> Result<Model, Fault> {
    let mut best = model;
    let mut numbers = numbers_of(alloc, &best)?;
    numbers
        .as_mut_slice()
        .sort_unstable_by_key(|x| x.unsigned_abs());
    for i in (0..numbers.len()).rev() {
        let Some(old) = numbers.get(i).copied() else {
            break;
        };
        for k in 0..CANDIDATES {
            let Some(new) = candidate(old, k) else {
                break;
            };
            let Some(smaller) = replaced(alloc, &best, old, new, fuel)? else {
                continue;
            };
            match judge.is_false(&smaller, fuel) {
                Ok(true) => {
                    best = smaller;
                    break;
                }
                Ok(false) => {}
                Err(Fault::Steps) => return Ok(best),
                Err(fault) => return Err(fault),
            }
        }
    }
    Ok(best)
}

/// Candidate number k in the place of x: 0, 1, -1, 2, -2 and then the halves of x as far as they are others; None where it is no
/// smaller.
fn candidate(x: i128, k: u32) -> Option<i128> {
    let new = match k {
        0 => 0,
        1 => 1,
        2 => -1,
        3 => 2,
        4 => -2,
        _ => x.checked_div(1i128.checked_shl(k.saturating_sub(4))?)?,
    };
    if k > 4 && new.unsigned_abs() <= 2 {
        return None;
    }
    if new.unsigned_abs() < x.unsigned_abs() {
        Some(new)
    } else {
        None
    }
}

/// Each number of the constants and tables, once.
fn numbers_of(alloc: Global, model: &Model) -> Result<Vec<i128>, Fault> {
    let mut all: Vec<i128> = Vec::from_slice(alloc, model.constants.as_slice())?;
    for table in model.functions.iter() {
        all.extend_from_slice(table.values.as_slice())?;
        all.push(table.default)?;
        for i in 0..table.rows.len() {
            all.extend_from_slice(table.rows.row(i)?)?;
        }
    }
    for table in model.predicates.iter() {
        for i in 0..table.rows.len() {
            all.extend_from_slice(table.rows.row(i)?)?;
        }
    }
    all.as_mut_slice().sort_unstable();
    all.dedup();
    Ok(all)
}

fn swapped(x: i128, old: i128, new: i128) -> i128 {
    if x == old { new } else { x }
}

fn swapped_all(alloc: Global, row: &[i128], old: i128, new: i128) -> Result<Vec<i128>, Fault> {
    let mut out = Vec::with_capacity(alloc, row.len())?;
    for x in row {
        out.push(swapped(*x, old, new))?;
    }
    Ok(out)
}

/// The rows with one number in the place of another; None where two rows become one.
fn swapped_rows(
    alloc: Global,
    rows: &RowSet,
    old: i128,
    new: i128,
    fuel: &mut Fuel,
) -> Result<Option<RowSet>, Fault> {
    let mut out = RowSet::new(alloc);
    for i in 0..rows.len() {
        let row = swapped_all(alloc, rows.row(i)?, old, new)?;
        fuel.spend((row.len() as u64).saturating_add(4))?;
        let (_number, is_new) = out.insert(row.as_slice(), fuel)?;
        if !is_new {
            return Ok(None);
        }
    }
    Ok(Some(out))
}

/// The model with one number in the place of another everywhere; None where two rows become one.
fn replaced(
    alloc: Global,
    model: &Model,
    old: i128,
    new: i128,
    fuel: &mut Fuel,
) -> Result<Option<Model>, Fault> {
    let mut out = Model {
        functions: Vec::new(alloc),
        predicates: Vec::new(alloc),
        constants: swapped_all(alloc, model.constants.as_slice(), old, new)?,
    };
    for table in model.functions.iter() {
        let Some(rows) = swapped_rows(alloc, &table.rows, old, new, fuel)? else {
            return Ok(None);
        };
        out.functions.push(crate::tables::FunctionTable {
            rows,
            values: swapped_all(alloc, table.values.as_slice(), old, new)?,
            default: swapped(table.default, old, new),
        })?;
    }
    for table in model.predicates.iter() {
        let Some(rows) = swapped_rows(alloc, &table.rows, old, new, fuel)? else {
            return Ok(None);
        };
        out.predicates.push(crate::tables::PredicateTable {
            rows,
            truths: Vec::from_slice(alloc, table.truths.as_slice())?,
            default: table.default,
        })?;
    }
    Ok(Some(out))
}
