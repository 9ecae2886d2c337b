// What is true, since when and why.

use crate::theory::Reason;
use cdcl_forms::{Lit, negated, variable};
use cdcl_fuel::{Fault, at, put, small};
use std::alloc::Global;

#[derive(Drop)]
pub struct Trail {
    /// 1 true, -1 false, 0 open, by literal.
    pub value: Vec<i8>,
    pub level: Vec<u32>,
    pub reason: Vec<Reason>,
    /// Where a variable stands on the trail.
    pub place: Vec<u32>,
    pub lits: Vec<Lit>,
    /// Where each level begins.
    pub limits: Vec<usize>,
    pub head: usize,
    pub theory_head: usize,
}

impl Trail {
    pub fn new(alloc: Global) -> Trail {
        Trail {
            value: Vec::new(alloc),
            level: Vec::new(alloc),
            reason: Vec::new(alloc),
            place: Vec::new(alloc),
            lits: Vec::new(alloc),
            limits: Vec::new(alloc),
            head: 0,
            theory_head: 0,
        }
    }

    pub fn fresh(&mut self) -> Result<(), Fault> {
        self.value.push(0)?;
        self.value.push(0)?;
        self.level.push(0)?;
        self.reason.push(Reason::Decided)?;
        self.place.push(0)?;
        Ok(())
    }

    #[inline]
    pub fn now(&self) -> usize {
        self.limits.len()
    }

    #[inline]
    pub fn value_of(&self, l: Lit) -> Result<i8, Fault> {
        at(&self.value, l as usize)
    }

    #[inline]
    pub fn level_of(&self, l: Lit) -> Result<u32, Fault> {
        at(&self.level, variable(l))
    }

    #[inline]
    pub fn enqueue(&mut self, l: Lit, reason: Reason) -> Result<(), Fault> {
        put(&mut self.value, l as usize, 1)?;
        put(&mut self.value, negated(l) as usize, -1)?;
        let v = variable(l);
        put(&mut self.level, v, small(self.limits.len())?)?;
        put(&mut self.reason, v, reason)?;
        put(&mut self.place, v, small(self.lits.len())?)?;
        self.lits.push(l)?;
        Ok(())
    }

    pub fn new_level(&mut self) -> Result<(), Fault> {
        self.limits.push(self.lits.len())?;
        Ok(())
    }

    /// The next true literal that the theory has not seen.
    pub fn unseen(&mut self) -> Option<Lit> {
        let l = self.lits.get(self.theory_head).copied()?;
        self.theory_head = self.theory_head.saturating_add(1);
        Some(l)
    }
}
