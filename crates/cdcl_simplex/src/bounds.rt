// Values that keep the rows, and bounds on a trail. A sum has a row only while it has a bound.

use crate::rows::{NOWHERE, Tableau};
use cdcl_fuel::{Fault, Fuel, at, near, put};
use cdcl_rational::Ratio;
use std::alloc::Global;
use std::cmp::{Ordering, Reverse};
use std::collections::BinaryHeap;

/// A bound, and the literal that set it.
#[derive(Clone, Copy, Debug, PartialEq, Eq)]
pub struct Bound {
    pub v: i128,
    pub lit: u32,
}

/// A literal of a conflict with its multiplier: above 0 for a lower bound, below 0 for an upper one.
#[derive(Clone, Copy, Debug, PartialEq, Eq)]
pub struct Share {
    pub lit: u32,
    pub times: i128,
}

/// What became of a bound.
#[derive(Clone, Copy, Debug, PartialEq, Eq)]
pub enum Bounded {
    /// It says nothing new.
    Old,
    New,
    /// It crosses the other one; the conflict is told.
    Crossed,
}

#[derive(Clone, Copy)]
struct Undo {
    x: u32,
    upper: bool,
    old: Option<Bound>,
}

#[derive(Drop)]
pub struct Simplex {
    pub table: Tableau,
    pub value: Vec<Ratio>,
    pub lower: Vec<Option<Bound>>,
    pub upper: Vec<Option<Bound>>,
    trail: Vec<Undo>,
    marks: Vec<usize>,
    pub(crate) heap: BinaryHeap<Reverse<u32>>,
    pub(crate) inside: Vec<bool>,
    /// The sum that a variable is, and whether the rows know it.
    sums: Vec<Vec<(u32, i64)>>,
    active: Vec<bool>,
    pub pivots: u64,
    alloc: Global,
}

impl Simplex {
    pub fn new(alloc: Global) -> Simplex {
        Simplex {
            table: Tableau::new(alloc),
            value: Vec::new(alloc),
            lower: Vec::new(alloc),
            upper: Vec::new(alloc),
            trail: Vec::new(alloc),
            marks: Vec::new(alloc),
            heap: BinaryHeap::new(alloc),
            inside: Vec::new(alloc),
            sums: Vec::new(alloc),
            active: Vec::new(alloc),
            pivots: 0,
            alloc,
        }
    }

    /// A new variable with a first value.
    pub fn fresh(&mut self, first: i128) -> Result<u32, Fault> {
        let x = self.table.fresh()?;
        self.value.push(Ratio::whole(first))?;
        self.lower.push(None)?;
        self.upper.push(None)?;
        self.inside.push(false)?;
        self.sums.push(Vec::new(self.alloc))?;
        self.active.push(true)?;
        Ok(x)
    }

    /// A new variable that is the sum of c times x. It has a row from its first bound on.
    pub fn sum(&mut self, sum: Vec<(u32, i64)>) -> Result<u32, Fault> {
        let s = self.table.fresh()?;
        self.value.push(Ratio::whole(0))?;
        self.lower.push(None)?;
        self.upper.push(None)?;
        self.inside.push(false)?;
        self.sums.push(sum)?;
        self.active.push(false)?;
        Ok(s)
    }

    /// The present value.
    pub fn value_of(&self, x: u32) -> Result<Ratio, Fault> {
        if at(&self.active, x as usize)? {
            return at(&self.value, x as usize);
        }
        self.summed(x)
    }

    fn summed(&self, x: u32) -> Result<Ratio, Fault> {
        let mut v = Ratio::whole(0);
        for p in near(&self.sums, x as usize)?.as_slice() {
            v = v.plus(at(&self.value, p.0 as usize)?.times(p.1, 1)?)?;
        }
        Ok(v)
    }

    fn activate(&mut self, s: u32, fuel: &mut Fuel) -> Result<(), Fault> {
        put(&mut self.active, s as usize, true)?;
        let v = self.summed(s)?;
        put(&mut self.value, s as usize, v)?;
        let sum = near(&self.sums, s as usize)?;
        fuel.spend(sum.len() as u64)?;
        self.table.define(s, sum.as_slice(), fuel)
    }

    /// Takes out the rows of sums without bounds.
    pub fn sweep(&mut self) -> Result<(), Fault> {
        for r in (0..self.table.rows.len()).rev() {
            let b = near(&self.table.rows, r)?.basic as usize;
            let free = at(&self.lower, b)?.is_none() && at(&self.upper, b)?.is_none();
            if free && !near(&self.sums, b)?.is_empty() {
                put(&mut self.active, b, false)?;
                self.table.remove(cdcl_fuel::small(r)?)?;
            }
        }
        Ok(())
    }

    pub fn push(&mut self) -> Result<(), Fault> {
        self.marks.push(self.trail.len())?;
        Ok(())
    }

    /// Takes back the bounds of the levels above this one.
    pub fn backtrack(&mut self, level: usize) -> Result<(), Fault> {
        let Some(m) = self.marks.get(level).copied() else {
            return Ok(());
        };
        self.marks.truncate(level);
        for _ in m..self.trail.len() {
            let Some(u) = self.trail.pop() else {
                break;
            };
            if u.upper {
                put(&mut self.upper, u.x as usize, u.old)?;
            } else {
                put(&mut self.lower, u.x as usize, u.old)?;
            }
        }
        Ok(())
    }

    pub(crate) fn touch(&mut self, x: u32) -> Result<(), Fault> {
        if !at(&self.inside, x as usize)? {
            put(&mut self.inside, x as usize, true)?;
            self.heap.push(Reverse(x))?;
        }
        Ok(())
    }

    /// Adds d to what follows from a variable but for row `but`.
    pub(crate) fn spread(
        &mut self,
        x: u32,
        d: Ratio,
        but: u32,
        fuel: &mut Fuel,
    ) -> Result<(), Fault> {
        let n = near(&self.table.columns, x as usize)?.len();
        fuel.spend(n as u64)?;
        for k in 0..n {
            let cell = at(near(&self.table.columns, x as usize)?, k)?;
            if cell.row == but {
                continue;
            }
            let row = near(&self.table.rows, cell.row as usize)?;
            let b = row.basic;
            let a = at(&row.entries, cell.entry as usize)?.c;
            let c = at(&row.entries, row.own as usize)?.c;
            let moved = at(&self.value, b as usize)?.plus(d.times(a, -1)?.times(1, c)?)?;
            put(&mut self.value, b as usize, moved)?;
            self.touch(b)?;
        }
        Ok(())
    }

    fn shift(&mut self, x: u32, v: i128, fuel: &mut Fuel) -> Result<(), Fault> {
        let d = Ratio::whole(v).plus(at(&self.value, x as usize)?.times(-1, 1)?)?;
        put(&mut self.value, x as usize, Ratio::whole(v))?;
        self.spread(x, d, NOWHERE, fuel)
    }

    /// A bound that holds from now on.
    pub fn bound(
        &mut self,
        x: u32,
        is_upper: bool,
        new: Bound,
        conflict: &mut Vec<Share>,
        fuel: &mut Fuel,
    ) -> Result<Bounded, Fault> {
        let i = x as usize;
        if !at(&self.active, i)? {
            self.activate(x, fuel)?;
        }
        let lower = at(&self.lower, i)?;
        let upper = at(&self.upper, i)?;
        let (same, other) = if is_upper {
            (upper, lower)
        } else {
            (lower, upper)
        };
        if let Some(b) = same
            && (if is_upper { b.v <= new.v } else { b.v >= new.v })
        {
            return Ok(Bounded::Old);
        }
        if let Some(b) = other
            && (if is_upper { b.v > new.v } else { b.v < new.v })
        {
            crossed(is_upper, new, b, conflict)?;
            return Ok(Bounded::Crossed);
        }
        self.keep(x, is_upper, new, same)?;
        self.move_within(x, is_upper, new.v, fuel)?;
        Ok(Bounded::New)
    }

    /// The bound takes the place of the old one.
    fn keep(
        &mut self,
        x: u32,
        is_upper: bool,
        new: Bound,
        old: Option<Bound>,
    ) -> Result<(), Fault> {
        self.trail.push(Undo {
            x,
            upper: is_upper,
            old,
        })?;
        if is_upper {
            put(&mut self.upper, x as usize, Some(new))
        } else {
            put(&mut self.lower, x as usize, Some(new))
        }
    }

    /// The value of a variable without a row goes to its new bound where it crosses it; a sum with a row is looked at later.
    fn move_within(
        &mut self,
        x: u32,
        is_upper: bool,
        v: i128,
        fuel: &mut Fuel,
    ) -> Result<(), Fault> {
        let i = x as usize;
        if at(&self.table.row_of, i)? != NOWHERE {
            return self.touch(x);
        }
        let o = at(&self.value, i)?.versus(v)?;
        if (is_upper && o == Ordering::Greater) || (!is_upper && o == Ordering::Less) {
            self.shift(x, v, fuel)?;
        }
        Ok(())
    }
}

/// Two bounds that exclude each other, with their multipliers.
fn crossed(
    is_upper: bool,
    new: Bound,
    other: Bound,
    conflict: &mut Vec<Share>,
) -> Result<(), Fault> {
    let sign = if is_upper { -1 } else { 1 };
    conflict.push(Share {
        lit: new.lit,
        times: sign,
    })?;
    conflict.push(Share {
        lit: other.lit,
        times: -sign,
    })?;
    Ok(())
}
