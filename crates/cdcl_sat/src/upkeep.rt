// Decisions, literals that follow late, and which learnt clauses are thrown away.

use crate::sat::{Late, Sat};
use crate::theory::Reason;
use cdcl_forms::{Lit, variable};
use cdcl_fuel::{Fault, Fuel, at, drop_at, near, near_mut, small, swap};
use std::num::saturating_f64_to_u64;

/// What a clause says now.
enum Standing {
    Held,
    /// This literal alone is open, at this place.
    Unit(Lit, usize),
    Loose,
}

impl Sat {
    fn standing(&self, c: u32) -> Result<Standing, Fault> {
        let mut found = None;
        let mut place: usize = 0;
        for l in near(&self.clauses, c as usize)?.lits.as_slice() {
            match self.trail.value_of(*l)? {
                1 => return Ok(Standing::Held),
                0 if found.is_some() => return Ok(Standing::Loose),
                0 => found = Some((*l, place)),
                _ => {}
            }
            place = place.saturating_add(1);
        }
        Ok(match found {
            Some((l, i)) => Standing::Unit(l, i),
            None => Standing::Loose,
        })
    }

    /// Makes the literals true again that followed since a level that is still there.
    pub fn again(&mut self, fuel: &mut Fuel) -> Result<(), Fault> {
        self.turned = false;
        for i in (0..self.late.len()).rev() {
            let late = at(&self.late, i)?;
            fuel.spend(near(&self.clauses, late.clause as usize)?.lits.len() as u64)?;
            if !self.follow_again(late)? {
                drop_at(&mut self.late, i)?;
            }
        }
        Ok(())
    }

    /// Whether the clause is to be looked at again after the next step back.
    fn follow_again(&mut self, late: Late) -> Result<bool, Fault> {
        let early = self.trail.now() <= late.level as usize;
        match self.standing(late.clause)? {
            Standing::Held => Ok(!early),
            Standing::Loose => Ok(false),
            Standing::Unit(l, place) => {
                let cl = near_mut(&mut self.clauses, late.clause as usize)?;
                if cl.lits.len() > 1 {
                    // the open literal and a false one are to be watched
                    if place > 1 {
                        return Ok(false);
                    }
                    if place == 1 {
                        swap(&mut cl.lits, 0, 1)?;
                    }
                }
                self.trail.enqueue(l, Reason::Clause(late.clause))?;
                Ok(!early)
            }
        }
    }

    /// Throws away half of the learnt clauses.
    pub fn reduce(&mut self, fuel: &mut Fuel) -> Result<(), Fault> {
        let mut candidates: Vec<(u64, u32)> = Vec::new(self.alloc);
        let scale = 1e15 / self.bump;
        fuel.spend(self.clauses.len() as u64)?;
        for i in 0..self.clauses.len() {
            if let Some(worth) = self.worth(i, scale)? {
                candidates.push((worth, small(i)?))?;
            }
        }
        candidates.as_mut_slice().sort_unstable();
        let half = candidates.len() / 2;
        candidates.truncate(half);
        for x in candidates.as_slice() {
            let cl = near_mut(&mut self.clauses, x.1 as usize)?;
            cl.lits = Vec::new(self.alloc);
            cl.learnt = false;
            cl.attached = false;
            self.free.push(x.1)?;
        }
        self.learnts = self.learnts.saturating_sub(half);
        self.sweep_watches()
    }

    /// How much a learnt clause is worth; None where it is to stay.
    fn worth(&self, c: usize, scale: f64) -> Result<Option<u64>, Fault> {
        let cl = near(&self.clauses, c)?;
        if !cl.learnt || !cl.attached || cl.levels <= 2 || cl.lits.len() <= 2 {
            return Ok(None);
        }
        let worth = saturating_f64_to_u64(cl.activity * scale);
        let l = at(&cl.lits, 0)?;
        Ok(if self.is_reason(c, l)? {
            None
        } else {
            Some(worth)
        })
    }

    /// Whether the clause is the reason of a literal.
    fn is_reason(&self, c: usize, l: Lit) -> Result<bool, Fault> {
        if self.trail.value_of(l)? != 1 {
            return Ok(false);
        }
        Ok(match at(&self.trail.reason, variable(l))? {
            Reason::Clause(d) => d as usize == c,
            _ => false,
        })
    }

    /// Takes the clauses that are gone out of the lists.
    fn sweep_watches(&mut self) -> Result<(), Fault> {
        let clauses = self.clauses.as_slice();
        for ws in self.watches.iter_mut() {
            ws.retain(|w| match clauses.get(w.clause as usize) {
                Some(cl) => !cl.lits.is_empty(),
                None => false,
            });
        }
        Ok(())
    }

    /// Whether the variable stands in a clause that has to be true and is not yet.
    fn is_wanted(&self, v: u32, fuel: &mut Fuel) -> Result<bool, Fault> {
        for c in near(&self.uses, v as usize)?.as_slice() {
            let mut held = false;
            let cl = near(&self.clauses, *c as usize)?;
            fuel.spend(1)?;
            for l in cl.lits.as_slice() {
                if self.trail.value_of(*l)? == 1 {
                    held = true;
                    break;
                }
            }
            if !held {
                return Ok(true);
            }
        }
        Ok(false)
    }

    /// The variable to decide next; None where all clauses are true.
    pub fn decide_next(&mut self, fuel: &mut Fuel) -> Result<Option<u32>, Fault> {
        for _ in 0..u64::MAX {
            let Some(v) = self.order.pop()? else {
                return Ok(None);
            };
            fuel.spend(2)?;
            if at(&self.trail.value, (v as usize).saturating_mul(2))? != 0 {
                continue;
            }
            if self.is_wanted(v, fuel)? {
                return Ok(Some(v));
            }
            self.skipped.push(v)?;
        }
        Ok(None)
    }

    pub fn new_level(&mut self) -> Result<(), Fault> {
        self.skip_limits.push(self.skipped.len())?;
        self.trail.new_level()
    }
}
