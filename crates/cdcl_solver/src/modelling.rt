// The tables of a search's model as those of the product.

use cdcl_fuel::{Fault, at};
use cdcl_matching::RowSet;
use cdcl_models::{FunctionTable, PredicateTable};
use model_table::{FunctionModel, Model, PredicateModel, TruthEntry, ValueEntry};
use sqlite_items::Items;
use std::alloc::Global;

/// A model, and the values of the names of the first for-alls.
#[derive(Drop)]
pub(crate) struct Refutation {
    pub(crate) model: Model,
    pub(crate) values: Vec<i128>,
}

/// The rows of a table that differ from its default, sorted by their arguments, each with what stands there.
fn rows_of<T: Copy + Ord + Drop>(
    alloc: Global,
    rows: &RowSet,
    found: &[T],
    default: T,
) -> Result<Vec<(Vec<i128>, T)>, Fault> {
    let mut out: Vec<(Vec<i128>, T)> = Vec::new(alloc);
    for i in 0..rows.len() {
        let x = at(found, i)?;
        if x != default {
            out.push((Vec::from_slice(alloc, rows.row(i)?)?, x))?;
        }
    }
    out.as_mut_slice().sort_unstable();
    Ok(out)
}

fn function_of(alloc: Global, table: &FunctionTable) -> Result<FunctionModel, Fault> {
    let sorted = rows_of(alloc, &table.rows, table.values.as_slice(), table.default)?;
    let mut rows = Items::new(alloc);
    for (arguments, value) in sorted {
        rows.push(ValueEntry {
            at: Items::from_vec(arguments),
            value,
        })?;
    }
    Ok(FunctionModel {
        rows,
        default: table.default,
    })
}

fn predicate_of(alloc: Global, table: &PredicateTable) -> Result<PredicateModel, Fault> {
    let sorted = rows_of(alloc, &table.rows, table.truths.as_slice(), table.default)?;
    let mut rows = Items::new(alloc);
    for (arguments, truth) in sorted {
        rows.push(TruthEntry {
            at: Items::from_vec(arguments),
            truth,
        })?;
    }
    Ok(PredicateModel {
        rows,
        default: table.default,
    })
}

/// The tables of the search as those of the product, with the values of the first constants; a constant that the search does
/// not have is 0.
pub(crate) fn refutation_of(
    alloc: Global,
    found: &cdcl_models::Model,
    universals: u32,
) -> Result<Refutation, Fault> {
    let mut model = Model::empty(alloc);
    for table in found.functions.as_slice() {
        model.functions.push(function_of(alloc, table)?)?;
    }
    for table in found.predicates.as_slice() {
        model.predicates.push(predicate_of(alloc, table)?)?;
    }
    let mut values = Vec::new(alloc);
    for k in 0..universals {
        values.push(match found.constants.get(k as usize) {
            Some(x) => *x,
            None => 0,
        })?;
    }
    Ok(Refutation { model, values })
}
