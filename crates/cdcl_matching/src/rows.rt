// Rows of numbers, each kept once and found again by its numbers: a hash table with open addressing.

use cdcl_fuel::{Fault, Fuel, at, near, put, small};
use std::alloc::Global;

const FREE: u32 = 0xFFFF_FFFF;

/// Rows of numbers, each once, by number in the order in which they came.
#[derive(Drop)]
pub struct RowSet {
    alloc: Global,
    numbers: Vec<i128>,
    /// Where each row ends in the numbers.
    ends: Vec<u32>,
    /// The row at each place of the hash table.
    slots: Vec<u32>,
}

impl RowSet {
    pub fn new(alloc: Global) -> RowSet {
        RowSet {
            alloc,
            numbers: Vec::new(alloc),
            ends: Vec::new(alloc),
            slots: Vec::new(alloc),
        }
    }

    /// How many rows there are.
    pub fn len(&self) -> usize {
        self.ends.len()
    }

    pub fn is_empty(&self) -> bool {
        self.ends.is_empty()
    }

    /// Row number i.
    pub fn row(&self, i: usize) -> Result<&[i128], Fault> {
        let end = at(&self.ends, i)? as usize;
        let start = match i.checked_sub(1) {
            Some(before) => at(&self.ends, before)? as usize,
            None => 0,
        };
        match self.numbers.get(start..end) {
            Some(row) => Ok(row),
            None => Err(Fault::Broken),
        }
    }

    /// The number of the row, None where it is not there.
    pub fn find(&self, row: &[i128], fuel: &mut Fuel) -> Result<Option<u32>, Fault> {
        if self.slots.is_empty() {
            return Ok(None);
        }
        let place = self.place(row, fuel)?;
        let found = at(&self.slots, place)?;
        Ok(if found == FREE { None } else { Some(found) })
    }

    /// The number of the row, which is added where it is not there; and whether it was added.
    pub fn insert(&mut self, row: &[i128], fuel: &mut Fuel) -> Result<(u32, bool), Fault> {
        if self.ends.len() >= self.slots.len() / 2 {
            self.grow(fuel)?;
        }
        let place = self.place(row, fuel)?;
        let found = at(&self.slots, place)?;
        if found != FREE {
            return Ok((found, false));
        }
        let new = small(self.ends.len())?;
        self.numbers.extend_from_slice(row)?;
        self.ends.push(small(self.numbers.len())?)?;
        put(&mut self.slots, place, new)?;
        Ok((new, true))
    }

    /// Where the row stands, or where it would.
    fn place(&self, row: &[i128], fuel: &mut Fuel) -> Result<usize, Fault> {
        let n = self.slots.len();
        let mut i = first_place(row, n);
        for _ in 0..n {
            fuel.spend(1)?;
            let there = at(&self.slots, i)?;
            if there == FREE || self.row(there as usize)? == row {
                return Ok(i);
            }
            i = i.saturating_add(1);
            if i >= n {
                i = 0;
            }
        }
        Err(Fault::Broken)
    }

    /// Twice as many places.
    fn grow(&mut self, fuel: &mut Fuel) -> Result<(), Fault> {
        let n = self.slots.len().saturating_mul(2).max(16);
        fuel.spend(n as u64)?;
        self.slots = vec![in self.alloc; FREE; n]?;
        for i in 0..self.ends.len() {
            let place = self.place(self.row(i)?, fuel)?;
            put(&mut self.slots, place, small(i)?)?;
        }
        Ok(())
    }
}

/// The place among n where the search for the row begins.
fn first_place(row: &[i128], n: usize) -> usize {
    let mut hash: u64 = 0;
    for x in row {
        let bits = x.cast_unsigned();
        let low = (bits & 0xFFFF_FFFF_FFFF_FFFF) as u64;
        let high = (bits >> 64) as u64;
        let mixed = hash.rotate_left(23) ^ low.wrapping_add(high.wrapping_mul(31));
        hash = mixed.wrapping_mul(0x9E37_79B9_7F4A_7C15);
    }
    hash ^= hash >> 29;
    match hash.checked_rem(n as u64) {
        Some(place) => place as usize,
        None => 0,
    }
}
