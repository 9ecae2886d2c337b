// Matches of the triggers of one formula, one for each row of values that the quantified names get.

use crate::rows::RowSet;
use cdcl_fuel::{Fault, Fuel, at, near_mut, small};
use std::alloc::Global;

/// The match of the lowest generation for some values: a trigger, and an item or a choice for each of its steps.
#[derive(Clone, Copy)]
pub struct Match {
    pub trigger: u32,
    pub generation: u32,
    start: u32,
    count: u32,
}

/// Matches by the values of the quantified names.
#[derive(Drop)]
pub struct Matches {
    values: RowSet,
    matches: Vec<Match>,
    chosen: Vec<u32>,
    row: Vec<i128>,
    names: usize,
    most: usize,
}

impl Matches {
    /// No matches yet for this many quantified names; no more than `most` are taken.
    pub fn new(alloc: Global, names: u32, most: usize) -> Matches {
        Matches {
            values: RowSet::new(alloc),
            matches: Vec::new(alloc),
            chosen: Vec::new(alloc),
            row: Vec::new(alloc),
            names: names as usize,
            most,
        }
    }

    pub fn len(&self) -> usize {
        self.matches.len()
    }

    pub fn is_empty(&self) -> bool {
        self.matches.is_empty()
    }

    pub fn is_full(&self) -> bool {
        self.matches.len() >= self.most
    }

    pub fn get(&self, i: usize) -> Result<Match, Fault> {
        at(&self.matches, i)
    }

    /// The values of the quantified names in match number i.
    pub fn values(&self, i: usize) -> Result<&[i128], Fault> {
        self.values.row(i)
    }

    /// The items and choices of a match, by step.
    pub fn chosen(&self, m: Match) -> Result<&[u32], Fault> {
        let start = m.start as usize;
        match self
            .chosen
            .get(start..start.saturating_add(m.count as usize))
        {
            Some(chosen) => Ok(chosen),
            None => Err(Fault::Broken),
        }
    }

    /// Takes a match, if each quantified name has a value, and no match of the same values has as low a generation.
    pub(crate) fn take(
        &mut self,
        trigger: u32,
        generation: u32,
        bound: &[Option<i128>],
        chosen: &[u32],
        fuel: &mut Fuel,
    ) -> Result<(), Fault> {
        self.row.clear();
        for i in 0..self.names {
            match at(bound, i)? {
                Some(x) => self.row.push(x)?,
                None => return Ok(()),
            }
        }
        let (number, is_new) = self.values.insert(self.row.as_slice(), fuel)?;
        if !is_new && at(&self.matches, number as usize)?.generation <= generation {
            return Ok(());
        }
        let found = Match {
            trigger,
            generation,
            start: small(self.chosen.len())?,
            count: small(chosen.len())?,
        };
        self.chosen.extend_from_slice(chosen)?;
        if is_new {
            self.matches.push(found)?;
        } else {
            *near_mut(&mut self.matches, number as usize)? = found;
        }
        Ok(())
    }
}
