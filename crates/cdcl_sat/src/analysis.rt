// Conflicts: the clause of the first unique implication point, without the literals that the others imply, with the numbers
// of the clauses that it follows from in the order in which unit propagation goes through them.

use crate::sat::{NONE, Sat};
use crate::theory::{Reason, Theory};
use cdcl_forms::{Lit, negated, variable};
use cdcl_fuel::{Fault, Fuel, at, near, near_mut, put, swap};

const OPEN: u8 = 0;

const IN_CLAUSE: u8 = 1;

const IMPLIED: u8 = 2;

const NOT_IMPLIED: u8 = 3;

const KEPT: u8 = 4;

const TRACED: u8 = 5;

/// How deep minimisation looks.
const DEPTH: u32 = 100;

impl Sat {
    /// The clause that is a literal's reason.
    fn reason_clause<T: Theory>(&mut self, theory: &mut T, l: Lit) -> Result<u32, Fault> {
        let v = variable(l);
        let why = at(&self.trail.reason, v)?;
        let mut lits: Vec<Lit> = Vec::new(self.alloc);
        match why {
            Reason::Clause(c) => return Ok(c),
            Reason::Decided => return Err(Fault::Broken),
            Reason::Bound(b) => {
                lits.push(l)?;
                lits.push(negated(b))?;
            }
            Reason::Fixed(lower, upper) => {
                lits.push(l)?;
                lits.push(negated(upper))?;
                lits.push(negated(lower))?;
            }
        }
        let id = theory.explained(l, why)?;
        let c = self.store(lits, id, false)?;
        put(&mut self.trail.reason, v, Reason::Clause(c))?;
        Ok(c)
    }

    /// The unit clauses of what is true before any decision.
    fn log_units<T: Theory>(&mut self, theory: &mut T) -> Result<(), Fault> {
        let end = match self.trail.limits.first() {
            Some(m) => *m,
            None => self.trail.lits.len(),
        };
        for k in self.unit_head..end {
            let l = at(&self.trail.lits, k)?;
            let c = self.reason_clause(theory, l)?;
            let cl = near(&self.clauses, c as usize)?;
            let mut id = cl.id;
            if cl.lits.len() != 1 {
                let mut hints: Vec<u32> = Vec::with_capacity(self.alloc, cl.lits.len())?;
                for q in cl.lits.as_slice() {
                    if *q != l {
                        hints.push(at(&self.units, variable(*q))?)?;
                    }
                }
                hints.push(cl.id)?;
                id = theory.learnt(&[l], hints.as_slice())?;
            }
            put(&mut self.units, variable(l), id)?;
        }
        self.unit_head = self.unit_head.max(end);
        Ok(())
    }

    /// The level of the highest literal of a clause.
    fn top_level(&self, c: u32) -> Result<u32, Fault> {
        let mut top = 0;
        for q in near(&self.clauses, c as usize)?.lits.as_slice() {
            top = top.max(self.trail.level_of(*q)?);
        }
        Ok(top)
    }

    /// Learns from a false clause. False where the clauses have no model: the empty clause is in the log then.
    pub fn learn<T: Theory>(
        &mut self,
        theory: &mut T,
        conflict: u32,
        fuel: &mut Fuel,
    ) -> Result<bool, Fault> {
        self.conflicts = self.conflicts.saturating_add(1);
        let top = self.top_level(conflict)?;
        self.cancel(theory, top as usize)?;
        self.log_units(theory)?;
        let id = near(&self.clauses, conflict as usize)?.id;
        self.unit_hints.clear();
        self.hints.clear();
        if top == 0 {
            let cl = near(&self.clauses, conflict as usize)?;
            for q in cl.lits.as_slice() {
                self.unit_hints.push(at(&self.units, variable(*q))?)?;
            }
            self.unit_hints.push(id)?;
            let _empty = theory.learnt(&[], self.unit_hints.as_slice())?;
            return Ok(false);
        }
        self.resolve_back(theory, conflict, top, fuel)?;
        self.minimise(theory, fuel)?;
        self.trace(theory, fuel)?;
        self.forget_marks()?;
        self.hints.as_mut_slice().sort_unstable();
        self.unit_hints.as_mut_slice().sort_unstable();
        self.unit_hints.dedup();
        for h in self.hints.as_slice() {
            self.unit_hints.push(h.1)?;
        }
        self.unit_hints.push(id)?;
        self.conclude(theory)?;
        self.release(conflict)?;
        Ok(true)
    }

    /// Marks the literals of clause c. How many of them are of the level now.
    fn resolve(&mut self, c: u32, skip: Option<Lit>, top: u32) -> Result<usize, Fault> {
        let cl = near_mut(&mut self.clauses, c as usize)?;
        cl.activity += self.bump;
        let mut found: usize = 0;
        for q in cl.lits.as_slice() {
            let q = *q;
            let v = variable(q);
            if Some(q) == skip || at(&self.seen, v)? {
                continue;
            }
            put(&mut self.seen, v, true)?;
            self.cleared.push(q / 2)?;
            let level = at(&self.trail.level, v)?;
            if level == 0 {
                self.unit_hints.push(at(&self.units, v)?)?;
                continue;
            }
            self.order.bump(q / 2)?;
            if level >= top {
                found = found.saturating_add(1);
            } else {
                self.learnt.push(q)?;
            }
        }
        Ok(found)
    }

    /// Resolves with reasons until one literal of the present level is left.
    fn resolve_back<T: Theory>(
        &mut self,
        theory: &mut T,
        conflict: u32,
        top: u32,
        fuel: &mut Fuel,
    ) -> Result<(), Fault> {
        self.learnt.clear();
        self.learnt.push(0)?;
        let mut open: usize = 0;
        let mut index = self.trail.lits.len();
        let mut c = conflict;
        let mut last = None;
        for _ in 0..u64::MAX {
            fuel.spend(near(&self.clauses, c as usize)?.lits.len() as u64)?;
            let more = self.resolve(c, last, top)?;
            open = open.saturating_add(more);
            let l = self.last_seen(index)?;
            index = l.0;
            if open <= 1 {
                put(&mut self.learnt, 0, negated(l.1))?;
                return Ok(());
            }
            open = open.saturating_sub(1);
            c = self.reason_clause(theory, l.1)?;
            let id = near(&self.clauses, c as usize)?.id;
            self.hints.push((cdcl_fuel::small(index)?, id))?;
            last = Some(l.1);
        }
        Err(Fault::Steps)
    }

    /// The last seen literal before index, and where it stands.
    fn last_seen(&self, index: usize) -> Result<(usize, Lit), Fault> {
        for i in (0..index).rev() {
            let l = at(&self.trail.lits, i)?;
            if at(&self.seen, variable(l))? {
                return Ok((i, l));
            }
        }
        Err(Fault::Broken)
    }

    fn mark(&mut self, v: usize, stamp: u8) -> Result<(), Fault> {
        if at(&self.stamp, v)? == OPEN {
            self.stamped.push(cdcl_fuel::small(v)?)?;
        }
        put(&mut self.stamp, v, stamp)
    }

    /// Leaves out the literals that the others imply.
    fn minimise<T: Theory>(&mut self, theory: &mut T, fuel: &mut Fuel) -> Result<(), Fault> {
        let n = self.learnt.len();
        for k in 0..n {
            let q = at(&self.learnt, k)?;
            self.mark(variable(q), IN_CLAUSE)?;
        }
        self.gone.clear();
        let mut kept: usize = 1;
        for k in 1..n {
            let q = at(&self.learnt, k)?;
            if self.redundant(theory, q, DEPTH, fuel)? {
                self.gone.push(q)?;
            } else {
                put(&mut self.learnt, kept, q)?;
                kept = kept.saturating_add(1);
            }
        }
        self.learnt.truncate(kept);
        Ok(())
    }

    /// Whether the others of the clause imply the literal.
    fn redundant<T: Theory>(
        &mut self,
        theory: &mut T,
        l: Lit,
        depth: u32,
        fuel: &mut Fuel,
    ) -> Result<bool, Fault> {
        let v = variable(l);
        if let Reason::Decided = at(&self.trail.reason, v)? {
            return Ok(false);
        }
        if depth == 0 {
            return Ok(false);
        }
        let held = at(&self.trail.lits, at(&self.trail.place, v)? as usize)?;
        let c = self.reason_clause(theory, held)?;
        let n = near(&self.clauses, c as usize)?.lits.len();
        fuel.spend(n as u64)?;
        for k in 0..n {
            let q = at(&near(&self.clauses, c as usize)?.lits, k)?;
            let w = variable(q);
            if w == v || at(&self.trail.level, w)? == 0 {
                continue;
            }
            match at(&self.stamp, w)? {
                IN_CLAUSE | IMPLIED => {}
                NOT_IMPLIED => return Ok(false),
                _ => {
                    let implied = self.redundant(theory, q, depth - 1, fuel)?;
                    self.mark(w, if implied { IMPLIED } else { NOT_IMPLIED })?;
                    if !implied {
                        return Ok(false);
                    }
                }
            }
        }
        Ok(true)
    }

    /// The reasons of the literals that were left out.
    fn trace<T: Theory>(&mut self, theory: &mut T, fuel: &mut Fuel) -> Result<(), Fault> {
        for k in 0..self.learnt.len() {
            let q = at(&self.learnt, k)?;
            self.mark(variable(q), KEPT)?;
        }
        for _ in 0..u64::MAX {
            let Some(q) = self.gone.pop() else {
                return Ok(());
            };
            let v = variable(q);
            let stamp = at(&self.stamp, v)?;
            if stamp == KEPT || stamp == TRACED {
                continue;
            }
            self.mark(v, TRACED)?;
            self.trace_one(theory, v, fuel)?;
        }
        Err(Fault::Steps)
    }

    fn trace_one<T: Theory>(
        &mut self,
        theory: &mut T,
        v: usize,
        fuel: &mut Fuel,
    ) -> Result<(), Fault> {
        let place = at(&self.trail.place, v)?;
        let l = at(&self.trail.lits, place as usize)?;
        let c = self.reason_clause(theory, l)?;
        let cl = near(&self.clauses, c as usize)?;
        fuel.spend(cl.lits.len() as u64)?;
        self.hints.push((place, cl.id))?;
        for q in cl.lits.as_slice() {
            let w = variable(*q);
            if w == v {
                continue;
            }
            if at(&self.trail.level, w)? == 0 {
                self.unit_hints.push(at(&self.units, w)?)?;
            } else {
                self.gone.push(*q)?;
            }
        }
        Ok(())
    }

    fn forget_marks(&mut self) -> Result<(), Fault> {
        for v in self.cleared.as_slice() {
            put(&mut self.seen, *v as usize, false)?;
        }
        self.cleared.clear();
        for v in self.stamped.as_slice() {
            put(&mut self.stamp, *v as usize, OPEN)?;
        }
        self.stamped.clear();
        Ok(())
    }

    /// The second highest level of the learnt clause, whose literal becomes its second one.
    fn second_level(&mut self) -> Result<usize, Fault> {
        let mut best: usize = 0;
        let mut back: u32 = 0;
        for k in 1..self.learnt.len() {
            let level = self.trail.level_of(at(&self.learnt, k)?)?;
            if level > back {
                back = level;
                best = k;
            }
        }
        if best > 0 {
            swap(&mut self.learnt, 1, best)?;
        }
        Ok(back as usize)
    }

    /// How many levels the learnt clause has literals of.
    fn count_levels(&self) -> Result<u32, Fault> {
        let mut levels: Vec<u32> = Vec::with_capacity(self.alloc, self.learnt.len())?;
        for q in self.learnt.as_slice() {
            levels.push(self.trail.level_of(*q)?)?;
        }
        levels.as_mut_slice().sort_unstable();
        levels.dedup();
        cdcl_fuel::small(levels.len())
    }

    /// Takes the learnt clause in.
    fn conclude<T: Theory>(&mut self, theory: &mut T) -> Result<(), Fault> {
        let back = self.second_level()?;
        let levels = self.count_levels()?;
        let id = theory.learnt(self.learnt.as_slice(), self.unit_hints.as_slice())?;
        self.cancel(theory, back)?;
        let first = at(&self.learnt, 0)?;
        let many = self.learnt.len() > 1;
        let lits = Vec::from_slice(self.alloc, self.learnt.as_slice())?;
        let c = self.store(lits, id, true)?;
        let bump = self.bump;
        let cl = near_mut(&mut self.clauses, c as usize)?;
        cl.levels = levels;
        cl.activity = bump;
        if many {
            self.watch(c)?;
            self.learnts = self.learnts.saturating_add(1);
        }
        self.trail.enqueue(first, Reason::Clause(c))?;
        self.order.decay();
        self.decay()
    }

    fn decay(&mut self) -> Result<(), Fault> {
        self.bump /= 0.999;
        if self.bump > 1e100 {
            for cl in self.clauses.iter_mut() {
                cl.activity *= 1e-100;
            }
            self.bump *= 1e-100;
        }
        Ok(())
    }

    /// The number in the log of the unit clause of a literal that is true before any decision.
    pub fn unit_of(&self, l: Lit) -> Result<Option<u32>, Fault> {
        let id = at(&self.units, variable(l))?;
        Ok(if id == NONE { None } else { Some(id) })
    }
}
