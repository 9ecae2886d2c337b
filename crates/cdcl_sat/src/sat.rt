// The clauses, how new ones are taken in, and propagation.

use crate::clause::{Clause, Visited, Watch};
use crate::order::Order;
use crate::theory::{Reason, Theory};
use crate::trail::Trail;
use cdcl_forms::{Lit, TRUE, negated, variable};
use cdcl_fuel::{Fault, Fuel, at, near, near_mut, put, small};
use std::alloc::Global;
use std::mem;

/// No number of a clause.
pub(crate) const NONE: u32 = 0xFFFF_FFFF;

/// A clause that gives its literal since an earlier level than the one at which it was taken in.
#[derive(Clone, Copy)]
pub(crate) struct Late {
    pub(crate) clause: u32,
    pub(crate) level: u32,
}

#[derive(Drop)]
pub struct Sat {
    pub(crate) alloc: Global,
    pub trail: Trail,
    pub(crate) order: Order,
    pub(crate) clauses: Vec<Clause>,
    pub(crate) free: Vec<u32>,
    pub(crate) watches: Vec<Vec<Watch>>,
    pub phase: Vec<bool>,
    /// The clauses to be satisfied in which a variable stands.
    pub(crate) uses: Vec<Vec<u32>>,
    /// Whether a literal stands in a clause that a model has to satisfy, by literal.
    pub needed: Vec<bool>,
    pub(crate) late: Vec<Late>,
    pub(crate) skipped: Vec<u32>,
    pub(crate) skip_limits: Vec<usize>,
    /// The number in the log of the unit clause of what is true before any decision.
    pub(crate) units: Vec<u32>,
    pub(crate) unit_head: usize,
    pub(crate) seen: Vec<bool>,
    pub(crate) cleared: Vec<u32>,
    pub(crate) stamp: Vec<u8>,
    pub(crate) stamped: Vec<u32>,
    pub(crate) learnt: Vec<Lit>,
    pub(crate) gone: Vec<Lit>,
    pub(crate) unit_hints: Vec<u32>,
    pub(crate) hints: Vec<(u32, u32)>,
    pub(crate) bump: f64,
    pub learnts: usize,
    pub conflicts: u64,
    /// Whether a level was given up since `again` was called.
    pub turned: bool,
}

impl Sat {
    pub fn new(alloc: Global) -> Sat {
        Sat {
            alloc,
            trail: Trail::new(alloc),
            order: Order::new(alloc),
            clauses: Vec::new(alloc),
            free: Vec::new(alloc),
            watches: Vec::new(alloc),
            phase: Vec::new(alloc),
            uses: Vec::new(alloc),
            needed: Vec::new(alloc),
            late: Vec::new(alloc),
            skipped: Vec::new(alloc),
            skip_limits: Vec::new(alloc),
            units: Vec::new(alloc),
            unit_head: 0,
            seen: Vec::new(alloc),
            cleared: Vec::new(alloc),
            stamp: Vec::new(alloc),
            stamped: Vec::new(alloc),
            learnt: Vec::new(alloc),
            gone: Vec::new(alloc),
            unit_hints: Vec::new(alloc),
            hints: Vec::new(alloc),
            bump: 1.0,
            learnts: 0,
            conflicts: 0,
            turned: false,
        }
    }

    /// A new variable, first tried with this truth.
    pub fn fresh(&mut self, phase: bool) -> Result<(), Fault> {
        self.trail.fresh()?;
        self.order.fresh()?;
        self.watches.push(Vec::new(self.alloc))?;
        self.watches.push(Vec::new(self.alloc))?;
        self.needed.push(false)?;
        self.needed.push(false)?;
        self.phase.push(phase)?;
        self.uses.push(Vec::new(self.alloc))?;
        self.units.push(NONE)?;
        self.seen.push(false)?;
        self.stamp.push(0)?;
        Ok(())
    }

    #[inline]
    pub fn value_of(&self, l: Lit) -> Result<i8, Fault> {
        self.trail.value_of(l)
    }

    /// Keeps a clause, without watching it.
    pub fn store(&mut self, lits: Vec<Lit>, id: u32, learnt: bool) -> Result<u32, Fault> {
        let clause = Clause {
            lits,
            id,
            learnt,
            attached: false,
            activity: 0.0,
            levels: 0,
        };
        if let Some(c) = self.free.pop() {
            let slot = near_mut(&mut self.clauses, c as usize)?;
            *slot = clause;
            return Ok(c);
        }
        let c = small(self.clauses.len())?;
        self.clauses.push(clause)?;
        Ok(c)
    }

    /// The literals of a clause that is kept.
    pub fn literals(&self, c: u32) -> Result<&[Lit], Fault> {
        Ok(near(&self.clauses, c as usize)?.lits.as_slice())
    }

    pub(crate) fn watch(&mut self, c: u32) -> Result<(), Fault> {
        let cl = near_mut(&mut self.clauses, c as usize)?;
        cl.attached = true;
        let a = at(&cl.lits, 0)?;
        let b = at(&cl.lits, 1)?;
        self.watch_by(
            a,
            Watch {
                clause: c,
                other: b,
            },
        )?;
        self.watch_by(
            b,
            Watch {
                clause: c,
                other: a,
            },
        )
    }

    #[inline]
    fn watch_by(&mut self, l: Lit, w: Watch) -> Result<(), Fault> {
        near_mut(&mut self.watches, l as usize)?.push(w)?;
        Ok(())
    }

    /// Lets a clause go that was kept for one use.
    pub(crate) fn release(&mut self, c: u32) -> Result<(), Fault> {
        let cl = near_mut(&mut self.clauses, c as usize)?;
        if !cl.attached && cl.lits.len() > 1 {
            cl.lits = Vec::new(self.alloc);
            self.free.push(c)?;
        }
        Ok(())
    }

    /// Gives up the levels above this one.
    pub fn cancel<T: Theory>(&mut self, theory: &mut T, level: usize) -> Result<(), Fault> {
        let Some(m) = self.trail.limits.get(level).copied() else {
            return Ok(());
        };
        for _ in m..self.trail.lits.len() {
            let Some(l) = self.trail.lits.pop() else {
                break;
            };
            self.open(l)?;
        }
        self.turned = true;
        self.trail.limits.truncate(level);
        let k = at(&self.skip_limits, level)?;
        self.skip_limits.truncate(level);
        for _ in k..self.skipped.len() {
            let Some(v) = self.skipped.pop() else {
                break;
            };
            if at(&self.trail.value, (v as usize).saturating_mul(2))? == 0 {
                self.order.insert(v)?;
            }
        }
        self.trail.head = m;
        self.trail.theory_head = self.trail.theory_head.min(m);
        theory.backtrack(level)
    }

    /// A literal is no longer true.
    fn open(&mut self, l: Lit) -> Result<(), Fault> {
        let v = variable(l);
        put(&mut self.trail.value, l as usize, 0)?;
        put(&mut self.trail.value, negated(l) as usize, 0)?;
        put(&mut self.phase, v, l % 2 == 0)?;
        if let Reason::Clause(c) = at(&self.trail.reason, v)? {
            self.release(c)?;
        }
        put(&mut self.trail.reason, v, Reason::Decided)?;
        self.order.insert(l / 2)
    }

    /// The literals of a clause: true ones first, by rising level, then open ones, then false ones by falling level. None
    /// where the clause is always true.
    fn ranked(&self, given: &[Lit]) -> Result<Option<Vec<Lit>>, Fault> {
        let mut keys: Vec<(u32, u32, Lit)> = Vec::with_capacity(self.alloc, given.len())?;
        for l in given {
            let level = self.trail.level_of(*l)?;
            keys.push(match self.trail.value_of(*l)? {
                1 => (0, level, *l),
                0 => (1, 0, *l),
                _ => (2, u32::MAX - level, *l),
            })?;
        }
        keys.as_mut_slice().sort_unstable();
        let mut lits: Vec<Lit> = Vec::with_capacity(self.alloc, keys.len())?;
        for k in keys.as_slice() {
            if lits.last() != Some(&k.2) {
                lits.push(k.2)?;
            }
        }
        for l in lits.as_slice() {
            let other = negated(*l);
            if (*l == TRUE && lits.len() > 1) || lits.contains(&other) {
                return Ok(None);
            }
        }
        Ok(Some(lits))
    }

    /// Takes a clause in. Its number if all its literals are false.
    pub fn attach<T: Theory>(
        &mut self,
        theory: &mut T,
        given: &[Lit],
        id: u32,
        is_input: bool,
    ) -> Result<Option<u32>, Fault> {
        let Some(lits) = self.ranked(given)? else {
            return Ok(None);
        };
        let first = at(&lits, 0)?;
        let second = lits.get(1).copied();
        let c = self.store(lits, id, false)?;
        let Some(second) = second else {
            return self.attach_unit(theory, c, first);
        };
        if is_input {
            self.use_clause(c)?;
        }
        self.watch(c)?;
        match self.trail.value_of(first)? {
            -1 => return Ok(Some(c)),
            0 if self.trail.value_of(second)? == -1 => {
                let level = self.trail.level_of(second)?;
                self.follow_late(c, first, level)?;
            }
            _ => {}
        }
        Ok(None)
    }

    fn attach_unit<T: Theory>(
        &mut self,
        theory: &mut T,
        c: u32,
        l: Lit,
    ) -> Result<Option<u32>, Fault> {
        match self.trail.value_of(l)? {
            -1 => {
                let level = self.trail.level_of(l)?;
                self.cancel(theory, level as usize)?;
                Ok(Some(c))
            }
            0 => {
                self.follow_late(c, l, 0)?;
                Ok(None)
            }
            _ => Ok(None),
        }
    }

    /// A model has to satisfy the clause.
    fn use_clause(&mut self, c: u32) -> Result<(), Fault> {
        let cl = near(&self.clauses, c as usize)?;
        for l in cl.lits.as_slice() {
            near_mut(&mut self.uses, variable(*l))?.push(c)?;
            if at(&self.trail.value, *l as usize)? == 0 {
                self.order.insert(*l / 2)?;
            }
        }
        Ok(())
    }

    /// A literal that follows since an earlier level is true from now on. It is made so again after each step back that is
    /// not after that level.
    fn follow_late(&mut self, clause: u32, l: Lit, level: u32) -> Result<(), Fault> {
        if self.trail.now() > level as usize {
            self.late.push(Late { clause, level })?;
        }
        self.trail.enqueue(l, Reason::Clause(clause))
    }

    /// Propagates through the clauses. The number of a false clause.
    pub fn propagate(&mut self, fuel: &mut Fuel) -> Result<Option<u32>, Fault> {
        for _ in 0..u64::MAX {
            let Some(l) = self.trail.lits.get(self.trail.head).copied() else {
                break;
            };
            self.trail.head = self.trail.head.saturating_add(1);
            if let Some(c) = self.visit(negated(l), fuel)? {
                return Ok(Some(c));
            }
        }
        Ok(None)
    }

    /// The literal f is false now.
    fn visit(&mut self, f: Lit, fuel: &mut Fuel) -> Result<Option<u32>, Fault> {
        let slot = near_mut(&mut self.watches, f as usize)?;
        let mut ws = mem::replace(slot, Vec::new(self.alloc));
        let n = ws.len();
        fuel.spend(1)?;
        fuel.spend(n as u64)?;
        let mut kept: usize = 0;
        let mut conflict = None;
        for i in 0..n {
            let w = at(&ws, i)?;
            let stays = if conflict.is_some() || self.trail.value_of(w.other)? == 1 {
                Some(w)
            } else {
                self.follow(w, f, &mut conflict)?
            };
            if let Some(w) = stays {
                put(&mut ws, kept, w)?;
                kept = kept.saturating_add(1);
            }
        }
        ws.truncate(kept);
        let slot = near_mut(&mut self.watches, f as usize)?;
        *slot = ws;
        Ok(conflict)
    }

    /// What becomes of a watch on the false literal f: it is gone where its clause watches another literal now. A clause of false
    /// literals alone is the conflict.
    #[inline]
    fn follow(
        &mut self,
        w: Watch,
        f: Lit,
        conflict: &mut Option<u32>,
    ) -> Result<Option<Watch>, Fault> {
        let cl = near_mut(&mut self.clauses, w.clause as usize)?;
        match cl.rewatch(&self.trail.value, f)? {
            Visited::True(first) => Ok(Some(w.beside(first))),
            Visited::Moved(first, l) => {
                self.watch_by(l, w.beside(first))?;
                Ok(None)
            }
            Visited::Unit(first) => {
                if self.trail.value_of(first)? == -1 {
                    *conflict = Some(w.clause);
                } else {
                    self.trail.enqueue(first, Reason::Clause(w.clause))?;
                }
                Ok(Some(w.beside(first)))
            }
        }
    }
}
