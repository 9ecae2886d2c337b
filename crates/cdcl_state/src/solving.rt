// Equations over the integers that hold: that they have no solution, or the cuts of the sums that they bind (Chvátal, Edmonds
// polytopes and a hierarchy of combinatorial problems, 1973).

use crate::state::State;
use cdcl_equations::{Equation, Part, Solution};
use cdcl_forms::{Lit, Term};
use cdcl_fuel::{Fault, at, mul, remainder, small, sub};
use cdcl_sat::Reason;
use cdcl_simplex::{Bound, Share};

/// How many cuts the equations give at a time.
const CUTS: u32 = 10;

/// An equation that holds, with how many names it has.
#[derive(Clone, Copy)]
struct Held {
    width: u32,
    lit: Lit,
    term: Term,
}

impl State {
    /// The sums with equal bounds, as equations that hold, the shortest first.
    fn held_equations(&mut self) -> Result<Vec<Held>, Fault> {
        let mut held: Vec<Held> = Vec::new(self.alloc);
        let n = self.widths()?;
        self.fuel.spend(u64::from(n))?;
        for x in 0..n {
            let (Some(low), Some(high)) = self.bounds_of(x)? else {
                continue;
            };
            if low.v == high.v {
                held.push(self.held_equation(x, low, high)?)?;
            }
        }
        held.sort_by_key(|h| h.width)?;
        Ok(held)
    }

    /// The equation of a sum with equal bounds, which becomes true if it was open.
    fn held_equation(&mut self, x: u32, low: Bound, high: Bound) -> Result<Held, Fault> {
        let linear = at(&self.linear_of, x as usize)?;
        let term = Term {
            linear,
            constant: sub(0, low.v)?,
        };
        let lit = self.equation(term)?;
        if self.sat.value_of(lit)? == 0 {
            self.sat
                .trail
                .enqueue(lit, Reason::Fixed(low.lit, high.lit))?;
        }
        let width = small(self.knowledge.words.terms.pairs(linear)?.len())?;
        Ok(Held { width, lit, term })
    }

    /// Solves the equations that hold. Whether they have no solution, or give cuts.
    pub(crate) fn solve_equations(&mut self) -> Result<bool, Fault> {
        let held = self.held_equations()?;
        if held.is_empty() {
            return Ok(false);
        }
        let mut solution = Solution::new(self.alloc, self.knowledge.words.constants());
        for i in 0..held.len() {
            let t = at(&held, i)?.term;
            let parts = self.solved(&mut solution, small(i)?, t)?;
            if let Some(parts) = parts {
                self.deny(held.as_slice(), parts.as_slice())?;
                return Ok(true);
            }
        }
        self.equation_cuts(&solution, held.as_slice())
    }

    /// Takes an equation into the solution. The parts of those that have no common one, if there is none.
    fn solved(
        &mut self,
        solution: &mut Solution,
        number: u32,
        t: Term,
    ) -> Result<Option<Vec<Part>>, Fault> {
        let pairs = self.knowledge.words.terms.pairs(t.linear)?;
        solution.take(number, pairs, t.constant, &mut self.fuel)
    }

    /// The clause that denies a combination of equations.
    fn deny(&mut self, held: &[Held], parts: &[Part]) -> Result<(), Fault> {
        self.conflict.clear();
        self.add_parts(held, parts, 1)?;
        self.pending = Some(self.theory_clause()?);
        Ok(())
    }

    /// Puts multiples of equations after the present conflict.
    fn add_parts(&mut self, held: &[Held], parts: &[Part], sign: i128) -> Result<(), Fault> {
        for p in parts {
            let lit = at(held, p.given as usize)?.lit;
            let times = mul(sign, p.times)?;
            self.conflict.push(Share { lit, times })?;
        }
        Ok(())
    }

    /// Cuts of the sums that the equations bind.
    fn equation_cuts(&mut self, solution: &Solution, held: &[Held]) -> Result<bool, Fault> {
        let mut cuts: u32 = 0;
        for x in 0..self.widths()? {
            let (lower, upper) = self.bounds_of(x)?;
            if is_fixed(lower, upper) {
                continue;
            }
            let e = self.reduced(solution, x)?;
            let g = e.divisor()?;
            if g == 0 || g == 1 && e.over == 1 {
                continue;
            }
            if self.bound_cut(&e, g, lower, 1, held)? {
                cuts = cuts.saturating_add(1);
            }
            if cuts < CUTS && self.bound_cut(&e, g, upper, -1, held)? {
                cuts = cuts.saturating_add(1);
            }
            if cuts >= CUTS {
                break;
            }
        }
        Ok(cuts > 0)
    }

    /// A sum as the solved equations leave it.
    fn reduced(&mut self, solution: &Solution, x: u32) -> Result<Equation, Fault> {
        let linear = at(&self.linear_of, x as usize)?;
        let pairs = self.knowledge.words.terms.pairs(linear)?;
        solution.reduced(pairs, &mut self.fuel)
    }

    /// Whether a bound, if there is one, gives a cut.
    fn bound_cut(
        &mut self,
        e: &Equation,
        g: i128,
        bound: Option<Bound>,
        sign: i128,
        held: &[Held],
    ) -> Result<bool, Fault> {
        match bound {
            Some(b) => self.equation_cut(e, g, b, sign, held),
            None => Ok(false),
        }
    }

    /// The cut of a bound of a sum that is the constant of the equation modulo g.
    fn equation_cut(
        &mut self,
        e: &Equation,
        g: i128,
        bound: Bound,
        sign: i128,
        held: &[Held],
    ) -> Result<bool, Fault> {
        if remainder(sub(bound.v, e.constant)?, g)? == 0 {
            return Ok(false);
        }
        let times = mul(sign, e.over)?;
        self.conflict.clear();
        self.conflict.push(Share {
            lit: bound.lit,
            times,
        })?;
        self.add_parts(held, e.parts.as_slice(), sign)?;
        self.cut()
    }
}

/// Whether a sum has no bound, or one value alone.
fn is_fixed(lower: Option<Bound>, upper: Option<Bound>) -> bool {
    match (lower, upper) {
        (None, None) => true,
        (Some(l), Some(u)) => l.v == u.v,
        _ => false,
    }
}
