// Functions and predicates as finite tables with defaults.

use cdcl_forms::{Present, literal};
use cdcl_fuel::{Fault, Fuel, at};
use cdcl_matching::{Items, RowSet};
use std::alloc::Global;

/// A function: a value at each row of arguments, and one elsewhere.
#[derive(Drop)]
pub struct FunctionTable {
    pub rows: RowSet,
    pub values: Vec<i128>,
    pub default: i128,
}

/// A predicate: its truth at each row of arguments, and elsewhere.
#[derive(Drop)]
pub struct PredicateTable {
    pub rows: RowSet,
    pub truths: Vec<bool>,
    pub default: bool,
}

/// Tables by number, and the values of the constants.
#[derive(Drop)]
pub struct Model {
    pub functions: Vec<FunctionTable>,
    pub predicates: Vec<PredicateTable>,
    pub constants: Vec<i128>,
}

/// How the defaults of a model are chosen.
#[derive(Clone, Copy, Debug, PartialEq, Eq)]
pub enum Defaults {
    /// Functions are 0, predicates false.
    Zero,
    /// Functions have their most frequent value, predicates are false.
    Frequent,
    /// Functions have their most frequent value, predicates their most frequent truth.
    AllFrequent,
}

impl FunctionTable {
    fn new(alloc: Global) -> FunctionTable {
        FunctionTable {
            rows: RowSet::new(alloc),
            values: Vec::new(alloc),
            default: 0,
        }
    }

    fn add(&mut self, row: &[i128], value: i128, fuel: &mut Fuel) -> Result<(), Fault> {
        let (_number, is_new) = self.rows.insert(row, fuel)?;
        if is_new {
            self.values.push(value)?;
        }
        Ok(())
    }

    /// The value at these arguments, None where no row has them.
    pub fn value(&self, row: &[i128], fuel: &mut Fuel) -> Result<Option<i128>, Fault> {
        match self.rows.find(row, fuel)? {
            Some(i) => Ok(Some(at(&self.values, i as usize)?)),
            None => Ok(None),
        }
    }
}

impl PredicateTable {
    fn new(alloc: Global) -> PredicateTable {
        PredicateTable {
            rows: RowSet::new(alloc),
            truths: Vec::new(alloc),
            default: false,
        }
    }

    fn add(&mut self, row: &[i128], truth: bool, fuel: &mut Fuel) -> Result<(), Fault> {
        let (_number, is_new) = self.rows.insert(row, fuel)?;
        if is_new {
            self.truths.push(truth)?;
        }
        Ok(())
    }

    /// The truth at these arguments, None where no row has them.
    pub fn truth(&self, row: &[i128], fuel: &mut Fuel) -> Result<Option<bool>, Fault> {
        match self.rows.find(row, fuel)? {
            Some(i) => Ok(Some(at(&self.truths, i as usize)?)),
            None => Ok(None),
        }
    }
}

impl Model {
    /// The tables that the items of a present model are.
    pub fn new(
        alloc: Global,
        items: &Items,
        present: &Present<'_>,
        fuel: &mut Fuel,
    ) -> Result<Model, Fault> {
        let mut model = Model {
            functions: Vec::new(alloc),
            predicates: Vec::new(alloc),
            constants: Vec::from_slice(alloc, present.values)?,
        };
        for table in items.functions() {
            let mut function = FunctionTable::new(alloc);
            for i in 0..table.len() {
                let row = table.row(cdcl_fuel::small(i)?)?;
                if let Some((value, arguments)) = row.split_last() {
                    fuel.spend((row.len() as u64).saturating_add(2))?;
                    function.add(arguments, *value, fuel)?;
                }
            }
            model.functions.push(function)?;
        }
        for table in items.predicates() {
            let predicate = known_truths(alloc, table, present, fuel)?;
            model.predicates.push(predicate)?;
        }
        Ok(model)
    }

    /// Chooses what functions and predicates are elsewhere.
    pub fn set_defaults(&mut self, defaults: Defaults, fuel: &mut Fuel) -> Result<(), Fault> {
        for table in self.functions.iter_mut() {
            fuel.spend(
                (table.values.len() as u64)
                    .saturating_mul(4)
                    .saturating_add(1),
            )?;
            table.default = match defaults {
                Defaults::Zero => 0,
                _ => most_frequent(&mut table.values)?,
            };
        }
        for table in self.predicates.iter_mut() {
            fuel.spend((table.truths.len() as u64).saturating_add(1))?;
            let held = table.truths.iter().filter(|t| **t).count();
            table.default = match defaults {
                Defaults::AllFrequent => held > table.truths.len() / 2,
                _ => false,
            };
        }
        Ok(())
    }

    /// The value of a function at these arguments, with its default elsewhere if `total`.
    pub fn value(
        &self,
        function: u32,
        row: &[i128],
        total: bool,
        fuel: &mut Fuel,
    ) -> Result<Option<i128>, Fault> {
        let elsewhere = if total { Some(0) } else { None };
        let Some(table) = self.functions.get(function as usize) else {
            return Ok(elsewhere);
        };
        match table.value(row, fuel)? {
            Some(value) => Ok(Some(value)),
            None => Ok(elsewhere.map(|_| table.default)),
        }
    }

    /// The truth of a predicate at these arguments, with its default elsewhere if `total`.
    pub fn truth(
        &self,
        predicate: u32,
        row: &[i128],
        total: bool,
        fuel: &mut Fuel,
    ) -> Result<Option<bool>, Fault> {
        let elsewhere = if total { Some(false) } else { None };
        let Some(table) = self.predicates.get(predicate as usize) else {
            return Ok(elsewhere);
        };
        match table.truth(row, fuel)? {
            Some(truth) => Ok(Some(truth)),
            None => Ok(elsewhere.map(|_| table.default)),
        }
    }
}

/// The truths that are true or false, and needed, in a present model.
fn known_truths(
    alloc: Global,
    table: &cdcl_matching::Table,
    present: &Present<'_>,
    fuel: &mut Fuel,
) -> Result<PredicateTable, Fault> {
    let mut predicate = PredicateTable::new(alloc);
    for i in 0..table.len() {
        let i = cdcl_fuel::small(i)?;
        let row = table.row(i)?;
        fuel.spend((row.len() as u64).saturating_add(2))?;
        let l = literal(table.source(i)?.number, true)?;
        let truth = present.holds(l)?;
        if !truth && !present.fails(l)? {
            continue;
        }
        if let Some((_none, arguments)) = row.split_last() {
            predicate.add(arguments, truth, fuel)?;
        }
    }
    Ok(predicate)
}

/// The most frequent of the values, the least among equals; 0 where there are none.
fn most_frequent(values: &Vec<i128>) -> Result<i128, Fault> {
    let mut sorted = Vec::from_slice(*values.allocator(), values.as_slice())?;
    sorted.as_mut_slice().sort_unstable();
    let (mut best, mut most): (i128, u64) = (0, 0);
    let (mut last, mut count): (i128, u64) = (0, 0);
    for x in sorted.as_slice() {
        count = if *x == last {
            count.saturating_add(1)
        } else {
            1
        };
        last = *x;
        if count > most {
            best = *x;
            most = count;
        }
    }
    Ok(best)
}
