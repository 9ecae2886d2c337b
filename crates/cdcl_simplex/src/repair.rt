// Repair of the values, and the reason where the bounds cannot be met (greedy pivots first, then Bland's rule, 1977).

use crate::bounds::{Share, Simplex};
use crate::rows::NOWHERE;
use cdcl_fuel::{Fault, Fuel, at, near, put, small};
use cdcl_rational::Ratio;
use std::cmp::Ordering;

/// How many pivots of one repair are greedy.
const GREEDY: u64 = 200;

/// An entry of a row by which a basic variable can be repaired.
#[derive(Clone, Copy)]
struct Entering {
    x: u32,
    c: i64,
    place: u32,
}

impl Simplex {
    #[inline]
    fn is_below(&self, x: u32) -> Result<bool, Fault> {
        match at(&self.lower, x as usize)? {
            Some(b) => Ok(at(&self.value, x as usize)?.versus(b.v)? == Ordering::Less),
            None => Ok(false),
        }
    }

    #[inline]
    fn is_above(&self, x: u32) -> Result<bool, Fault> {
        match at(&self.upper, x as usize)? {
            Some(b) => Ok(at(&self.value, x as usize)?.versus(b.v)? == Ordering::Greater),
            None => Ok(false),
        }
    }

    /// Whether the variable may rise, or fall.
    #[inline]
    fn is_free(&self, x: u32, rising: bool) -> Result<bool, Fault> {
        if rising {
            match at(&self.upper, x as usize)? {
                Some(b) => Ok(at(&self.value, x as usize)?.versus(b.v)? == Ordering::Less),
                None => Ok(true),
            }
        } else {
            match at(&self.lower, x as usize)? {
                Some(b) => Ok(at(&self.value, x as usize)?.versus(b.v)? == Ordering::Greater),
                None => Ok(true),
            }
        }
    }

    /// The entry of row r by which b can be repaired: the one with the shortest column, or the least one.
    fn entering(&self, r: u32, b: u32, low: bool, bland: bool) -> Result<Option<Entering>, Fault> {
        let row = near(&self.table.rows, r as usize)?;
        let own = at(&row.entries, row.own as usize)?.c;
        let mut best: Option<Entering> = None;
        let mut least = usize::MAX;
        let mut place: u32 = 0;
        for e in row.entries.as_slice() {
            let k = place;
            place = place.saturating_add(1);
            let rises = (e.c > 0) != (own > 0);
            if e.x == b || !self.is_free(e.x, rises == low)? {
                continue;
            }
            let cost = if bland {
                0
            } else {
                near(&self.table.columns, e.x as usize)?.len()
            };
            let better = match best {
                Some(old) => cost < least || cost == least && e.x < old.x,
                None => true,
            };
            if better {
                least = cost;
                best = Some(Entering {
                    x: e.x,
                    c: e.c,
                    place: k,
                });
            }
        }
        Ok(best)
    }

    /// The bounds that keep b from being repaired, as a sum that is absurd.
    fn explain(&self, r: u32, b: u32, low: bool, conflict: &mut Vec<Share>) -> Result<(), Fault> {
        let row = near(&self.table.rows, r as usize)?;
        let own = at(&row.entries, row.own as usize)?.c;
        for e in row.entries.as_slice() {
            let upper = if e.x == b {
                !low
            } else {
                ((e.c > 0) != (own > 0)) == low
            };
            let times = i128::from(e.c).checked_abs().ok_or(Fault::Overflow)?;
            let bound = if upper {
                at(&self.upper, e.x as usize)?
            } else {
                at(&self.lower, e.x as usize)?
            };
            let Some(held) = bound else {
                return Err(Fault::Broken);
            };
            let times = if upper {
                times.checked_neg().ok_or(Fault::Overflow)?
            } else {
                times
            };
            conflict.push(Share {
                lit: held.lit,
                times,
            })?;
        }
        Ok(())
    }

    /// Repairs the values. True where the bounds cannot be met; the conflict is told.
    pub fn check(&mut self, conflict: &mut Vec<Share>, fuel: &mut Fuel) -> Result<bool, Fault> {
        let mut rounds: u64 = 0;
        for _ in 0..u64::MAX {
            let Some(top) = self.heap.peek() else {
                return Ok(false);
            };
            let b = top.0;
            let r = at(&self.table.row_of, b as usize)?;
            let low = r != NOWHERE && self.is_below(b)?;
            let high = r != NOWHERE && self.is_above(b)?;
            if !low && !high {
                let _top = self.heap.pop();
                put(&mut self.inside, b as usize, false)?;
                continue;
            }
            rounds = rounds.saturating_add(1);
            fuel.spend(near(&self.table.rows, r as usize)?.entries.len() as u64)?;
            let Some(found) = self.entering(r, b, low, rounds > GREEDY)? else {
                self.explain(r, b, low, conflict)?;
                return Ok(true);
            };
            self.repair(r, b, low, found, fuel)?;
        }
        Err(Fault::Steps)
    }

    /// Moves b to its bound by the entry, and makes that one basic.
    fn repair(
        &mut self,
        r: u32,
        b: u32,
        low: bool,
        found: Entering,
        fuel: &mut Fuel,
    ) -> Result<(), Fault> {
        let bound = if low {
            at(&self.lower, b as usize)?
        } else {
            at(&self.upper, b as usize)?
        };
        let Some(held) = bound else {
            return Err(Fault::Broken);
        };
        let own = self.table.basic_coefficient(r)?;
        let gap = Ratio::whole(held.v).plus(at(&self.value, b as usize)?.times(-1, 1)?)?;
        let d = gap.times(own, -1)?.times(1, found.c)?;
        put(&mut self.value, b as usize, Ratio::whole(held.v))?;
        let x = found.x;
        let moved = at(&self.value, x as usize)?.plus(d)?;
        put(&mut self.value, x as usize, moved)?;
        self.spread(x, d, r, fuel)?;
        self.pivots = self.pivots.saturating_add(1);
        self.touch(x)?;
        self.table.pivot(r, b, x, found.place, fuel)
    }

    /// Whether a variable is at one of its bounds: that one, and whether it is the lower one.
    pub fn held_at(&self, x: u32) -> Result<Option<(crate::bounds::Bound, bool)>, Fault> {
        let v = at(&self.value, x as usize)?;
        if let Some(b) = at(&self.lower, x as usize)?
            && v == Ratio::whole(b.v)
        {
            return Ok(Some((b, true)));
        }
        if let Some(b) = at(&self.upper, x as usize)?
            && v == Ratio::whole(b.v)
        {
            return Ok(Some((b, false)));
        }
        Ok(None)
    }

    /// How many rows there are.
    pub fn rows(&self) -> Result<u32, Fault> {
        small(self.table.rows.len())
    }
}
