// Bounds from true atoms, what they say of other atoms of the same sum, and propagation through clauses and bounds (Dutertre
// and de Moura, A fast linear-arithmetic solver for DPLL(T), 2006).

use crate::state::{Arithmetic, State};
use cdcl_forms::{Lit, literal, negated, variable};
use cdcl_fuel::{Fault, at, near, sub};
use cdcl_sat::Reason;
use cdcl_simplex::{Bound, Bounded};

impl State {
    /// An atom became true or false. The number of a false clause.
    fn assert(&mut self, l: Lit) -> Result<Option<u32>, Fault> {
        let Some(a) = at(&self.arithmetic, variable(l))? else {
            return Ok(None);
        };
        let is_negated = l % 2 == 1;
        if a.is_equation {
            return if is_negated {
                self.fixed_false(a, negated(l))
            } else {
                Ok(None)
            };
        }
        let v = if is_negated {
            sub(a.bound, 1)?
        } else {
            a.bound
        };
        self.conflict.clear();
        let bound = Bound { v, lit: l };
        let told = self
            .knowledge
            .simplex
            .bound(a.x, is_negated, bound, &mut self.conflict, &mut self.fuel)?;
        match told {
            Bounded::Old => Ok(None),
            Bounded::New => self.imply(a.x),
            Bounded::Crossed => Ok(Some(self.theory_clause()?)),
        }
    }

    /// The lower and the upper bound of a simplex variable.
    pub(crate) fn bounds_of(&self, x: u32) -> Result<(Option<Bound>, Option<Bound>), Fault> {
        let lower = at(&self.knowledge.simplex.lower, x as usize)?;
        let upper = at(&self.knowledge.simplex.upper, x as usize)?;
        Ok((lower, upper))
    }

    /// The clause of a false equation whose sum has both bounds there.
    fn fixed_false(&mut self, a: Arithmetic, equation: Lit) -> Result<Option<u32>, Fault> {
        let (Some(lower), Some(upper)) = self.bounds_of(a.x)? else {
            return Ok(None);
        };
        if lower.v != a.bound || upper.v != a.bound {
            return Ok(None);
        }
        let (above, below) = (negated(upper.lit), negated(lower.lit));
        let id = self.knowledge.split(equation, above, below)?;
        let lits = Vec::from_slice(self.alloc, &[equation, above, below])?;
        Ok(Some(self.sat.store(lits, id, false)?))
    }

    /// What the bounds of a sum say of one of its atoms.
    pub fn implied(&self, v: u32) -> Result<Option<(Lit, Reason)>, Fault> {
        let Some(a) = at(&self.arithmetic, v as usize)? else {
            return Ok(None);
        };
        let (lower, upper) = self.bounds_of(a.x)?;
        if let Some(u) = upper
            && u.v < a.bound
        {
            return Ok(Some((literal(v, false)?, Reason::Bound(u.lit))));
        }
        let Some(l) = lower else {
            return Ok(None);
        };
        if !a.is_equation {
            return Ok(if l.v >= a.bound {
                Some((literal(v, true)?, Reason::Bound(l.lit)))
            } else {
                None
            });
        }
        if l.v > a.bound {
            return Ok(Some((literal(v, false)?, Reason::Bound(l.lit))));
        }
        match upper {
            Some(u) if l.v == a.bound && u.v == a.bound => Ok(Some((
                literal(v, true)?,
                Reason::Fixed(l.lit, u.lit),
            ))),
            _ => Ok(None),
        }
    }

    /// The atoms of a sum of which a bound is new.
    fn imply(&mut self, x: u32) -> Result<Option<u32>, Fault> {
        let n = near(&self.on, x as usize)?.len();
        self.fuel.spend(n as u64)?;
        for i in 0..n {
            let v = at(near(&self.on, x as usize)?, i)?;
            let l = literal(v, true)?;
            match self.sat.value_of(l)? {
                0 => {
                    if let Some((l, why)) = self.implied(v)? {
                        self.sat.trail.enqueue(l, why)?;
                    }
                }
                -1 => {
                    let found = self.denied(v, l)?;
                    if found.is_some() {
                        return Ok(found);
                    }
                }
                _ => {}
            }
        }
        Ok(None)
    }

    /// The clause of an atom that is false, if it is an equation whose sum has both bounds there.
    fn denied(&mut self, v: u32, equation: Lit) -> Result<Option<u32>, Fault> {
        match at(&self.arithmetic, v as usize)? {
            Some(a) if a.is_equation => self.fixed_false(a, equation),
            _ => Ok(None),
        }
    }

    /// Propagates through clauses and bounds. The number of a false clause.
    pub fn propagate(&mut self) -> Result<Option<u32>, Fault> {
        for _ in 0..u64::MAX {
            let found = self.sat.propagate(&mut self.fuel)?;
            if found.is_some() {
                return Ok(found);
            }
            let found = self.assert_all()?;
            if found.is_some() {
                return Ok(found);
            }
            if self.sat.trail.head < self.sat.trail.lits.len() {
                continue;
            }
            self.fuel.spend(1)?;
            self.conflict.clear();
            if self
                .knowledge
                .simplex
                .check(&mut self.conflict, &mut self.fuel)?
            {
                self.weaken()?;
                return Ok(Some(self.theory_clause()?));
            }
            return Ok(None);
        }
        Err(Fault::Steps)
    }

    /// All literals that are new on the trail.
    fn assert_all(&mut self) -> Result<Option<u32>, Fault> {
        for _ in 0..u64::MAX {
            let Some(l) = self.sat.trail.unseen() else {
                return Ok(None);
            };
            let found = self.assert(l)?;
            if found.is_some() {
                return Ok(found);
            }
        }
        Err(Fault::Steps)
    }
}
