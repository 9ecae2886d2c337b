// Cuts: a sum of facts, divided by what divides its coefficients and rounded down (Chvátal, Edmonds polytopes and a hierarchy
// of combinatorial problems, 1973), also from the rows of values that are not whole (Gomory, 1958).

use crate::state::State;
use cdcl_forms::{Lit, Term, Terms, negated};
use cdcl_fuel::{Fault, at, floor_div, near, remainder, sub};
use cdcl_simplex::Share;

/// How many entries a row has at most that gives a cut.
const WIDEST: usize = 60;

/// The greatest coefficient of a cut.
const GREATEST: u128 = 1_000_000;

impl State {
    /// The sum of the facts in the present conflict. Leaves their literals, which are false, with the multipliers.
    fn summed(&mut self) -> Result<Term, Fault> {
        let mut sum = Terms::number(0);
        self.factors.clear();
        for k in 0..self.conflict.len() {
            let x = at(&self.conflict, k)?;
            let fact = self.knowledge.fact(x.lit)?;
            let times = if fact.is_equation {
                x.times
            } else {
                x.times.checked_abs().ok_or(Fault::Overflow)?
            };
            sum = self
                .knowledge
                .words
                .terms
                .combine(1, sum, times, fact.term)?;
            self.factors.push((negated(x.lit), times))?;
        }
        let width = self.knowledge.words.terms.pairs(sum.linear)?.len();
        self.fuel.spend(5)?;
        self.fuel.spend(width as u64)?;
        Ok(sum)
    }

    /// The clause of the sum of the facts in the present conflict, rounded. False where it says nothing new.
    pub(crate) fn cut(&mut self) -> Result<bool, Fault> {
        let sum = self.summed()?;
        if sum.linear == 0 {
            return Ok(false);
        }
        let by = self.knowledge.words.terms.divisor(sum.linear)?;
        let t = Term {
            linear: self.knowledge.words.terms.primitive(sum.linear)?,
            constant: floor_div(sum.constant, by)?,
        };
        for p in self.knowledge.words.terms.pairs(t.linear)? {
            if p.factor.unsigned_abs() > GREATEST {
                return Ok(false);
            }
        }
        let goal = self.inequality(t)?;
        if self.sat.value_of(goal)? != 0 {
            return Ok(false);
        }
        self.factors.push((goal, by))?;
        let id = self.knowledge.log.sum(self.factors.as_slice())?;
        let mut lits: Vec<Lit> = Vec::with_capacity(self.alloc, self.factors.len())?;
        for f in self.factors.as_slice() {
            lits.push(f.0)?;
        }
        self.input(lits.as_slice(), id)?;
        Ok(true)
    }

    /// The slacks of a row with their multipliers modulo the coefficient of its basic variable, for rounding up (or down). None
    /// where a value is at no bound.
    fn slacks(&self, r: u32, down: bool) -> Result<Option<Vec<Share>>, Fault> {
        let own = i128::from(self.knowledge.simplex.table.basic_coefficient(r)?);
        let by = own.checked_abs().ok_or(Fault::Overflow)?;
        let mut out: Vec<Share> = Vec::new(self.alloc);
        let row = near(&self.knowledge.simplex.table.rows, r as usize)?;
        for e in row.entries.as_slice() {
            let c = i128::from(e.c);
            if e.x == row.basic || remainder(c, by)? == 0 {
                continue;
            }
            let Some((bound, is_lower)) = self.knowledge.simplex.held_at(e.x)? else {
                return Ok(None);
            };
            // the basic variable grows by -c / own for each unit; the slack of an upper bound falls
            let rises = (c > 0) != (own > 0);
            let size = c.checked_abs().ok_or(Fault::Overflow)?;
            let m = if (rises != is_lower) == down {
                size
            } else {
                sub(0, size)?
            };
            let times = remainder(m, by)?;
            let times = if is_lower { times } else { sub(0, times)? };
            out.push(Share {
                lit: bound.lit,
                times,
            })?;
        }
        Ok(Some(out))
    }

    /// Cuts from a row whose basic variable has no whole value.
    pub(crate) fn row_cut(&mut self, r: u32) -> Result<bool, Fault> {
        let width = near(&self.knowledge.simplex.table.rows, r as usize)?
            .entries
            .len();
        self.fuel.spend(width as u64)?;
        if width > WIDEST {
            return Ok(false);
        }
        let Some(first) = self.slacks(r, false)? else {
            return Ok(false);
        };
        let Some(second) = self.slacks(r, true)? else {
            return Ok(false);
        };
        if first.is_empty() {
            return Ok(false);
        }
        self.conflict = first;
        let one = self.cut()?;
        self.conflict = second;
        let other = self.cut()?;
        Ok(one || other)
    }
}
