// Conflicts of bounds: weaker bounds in their place, and the clause that each denies (Farkas).

use crate::state::{Arithmetic, State};
use cdcl_forms::{Lit, literal, negated, variable};
use cdcl_fuel::{Fault, add, at, mac, mul, near, put, sub};
use cdcl_simplex::Share;

impl State {
    /// The clause that the present conflict of bounds denies, with its step.
    pub(crate) fn theory_clause(&mut self) -> Result<u32, Fault> {
        self.conflict.as_mut_slice().sort_unstable_by_key(|x| x.lit);
        self.factors.clear();
        for k in 0..self.conflict.len() {
            let x = at(&self.conflict, k)?;
            let l = negated(x.lit);
            let times = match self.factors.last() {
                Some(last) if last.0 == l => add(last.1, x.times)?,
                _ => x.times,
            };
            if let Some(last) = self.factors.last()
                && last.0 == l
            {
                let _old = self.factors.pop();
            }
            self.factors.push((l, times))?;
        }
        let mut lits: Vec<Lit> = Vec::with_capacity(self.alloc, self.factors.len())?;
        for k in 0..self.factors.len() {
            let (l, times) = at(&self.factors, k)?;
            let times = self.knowledge.oriented(l, times)?;
            put(&mut self.factors, k, (l, times))?;
            lits.push(l)?;
        }
        let id = self.knowledge.log.sum(self.factors.as_slice())?;
        self.sat.store(lits, id, false)
    }

    /// How far the sum of the bounds of the present conflict is above what makes it absurd. None where equations take part.
    fn room(&self) -> Result<Option<i128>, Fault> {
        let mut sum = 0;
        for x in self.conflict.as_slice() {
            let Some(a) = at(&self.arithmetic, variable(x.lit))? else {
                return Ok(None);
            };
            if a.is_equation {
                return Ok(None);
            }
            let v = if x.lit % 2 == 0 {
                a.bound
            } else {
                sub(a.bound, 1)?
            };
            sum = mac(x.times, v, 1, sum)?;
        }
        Ok(Some(sub(sum, 1)?))
    }

    /// Weaker bounds in the place of those of the present conflict, as far as it stays one; those of the last levels first.
    pub(crate) fn weaken(&mut self) -> Result<(), Fault> {
        let Some(mut room) = self.room()? else {
            return Ok(());
        };
        if room <= 0 {
            return Ok(());
        }
        let mut order: Vec<(u32, u32)> = Vec::with_capacity(self.alloc, self.conflict.len())?;
        let mut place: u32 = 0;
        for x in self.conflict.as_slice() {
            let level = self.sat.trail.level_of(x.lit)?;
            if level > 0 {
                order.push((u32::MAX - level, place))?;
            }
            place = place.saturating_add(1);
        }
        order.as_mut_slice().sort_unstable();
        for o in order.as_slice() {
            let x = at(&self.conflict, o.1 as usize)?;
            let Some(a) = at(&self.arithmetic, variable(x.lit))? else {
                return Err(Fault::Broken);
            };
            self.fuel.spend(near(&self.on, a.x as usize)?.len() as u64)?;
            let best = self.weakest(x, a, room)?;
            room = sub(room, best.1)?;
            put(&mut self.conflict, o.1 as usize, Share { lit: best.0, ..x })?;
        }
        Ok(())
    }

    /// The weakest true bound of the same sum that costs no more than there is room, and its cost.
    fn weakest(&self, x: Share, a: Arithmetic, room: i128) -> Result<(Lit, i128), Fault> {
        let is_lower = x.lit % 2 == 0;
        let mut best = (x.lit, 0);
        let mut bound = a.bound;
        for v in near(&self.on, a.x as usize)?.as_slice() {
            let Some(o) = at(&self.arithmetic, *v as usize)? else {
                continue;
            };
            let l = literal(*v, is_lower)?;
            if o.is_equation || self.sat.value_of(l)? != 1 {
                continue;
            }
            let weaker = if is_lower {
                o.bound < bound
            } else {
                o.bound > bound
            };
            if !weaker {
                continue;
            }
            if let Ok(gap) = sub(a.bound, o.bound)
                && let Ok(cost) = mul(gap, x.times)
                && cost <= room
            {
                best = (l, cost);
                bound = o.bound;
            }
        }
        Ok(best)
    }
}
