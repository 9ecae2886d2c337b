// Whole values where all clauses are true: false equations that hold are split, and the values of all constants are read.

use crate::state::{NONE, State};
use cdcl_forms::literal;
use cdcl_fuel::{Fault, at};
use cdcl_rational::Ratio;

impl State {
    /// Whether something in the present values of arithmetic was not as the clauses want it, so that clauses were made.
    pub fn arithmetic_changed(&mut self) -> Result<bool, Fault> {
        if self.integers()? {
            return Ok(true);
        }
        self.disequalities()
    }

    /// Whether a false equation holds, so that it was split.
    fn disequalities(&mut self) -> Result<bool, Fault> {
        let mut any = false;
        self.fuel.spend(self.equations.len() as u64)?;
        for i in 0..self.equations.len() {
            let v = at(&self.equations, i)?;
            if self.is_denied_at_its_value(v)? {
                self.split(v)?;
                any = true;
            }
        }
        Ok(any)
    }

    /// Whether an equation is to be false, and holds at the present values.
    fn is_denied_at_its_value(&self, v: u32) -> Result<bool, Fault> {
        let l = literal(v, false)?;
        if self.sat.value_of(l)? != 1 || !at(&self.sat.needed, l as usize)? {
            return Ok(false);
        }
        let Some(a) = at(&self.arithmetic, v as usize)? else {
            return Err(Fault::Broken);
        };
        Ok(self.knowledge.simplex.value_of(a.x)? == Ratio::whole(a.bound))
    }

    /// Reads the present values of all constants, which are whole.
    pub fn take_values(&mut self) -> Result<(), Fault> {
        self.values.clear();
        let n = self.knowledge.words.constants();
        self.fuel.spend(u64::from(n))?;
        for c in 0..n {
            let v = self.value_of_constant(c)?;
            self.values.push(v)?;
        }
        Ok(())
    }

    /// The present value of a constant; one that no atom names has its first value.
    fn value_of_constant(&self, c: u32) -> Result<i128, Fault> {
        let x = match self.columns.get(c as usize) {
            Some(x) => *x,
            None => NONE,
        };
        if x == NONE {
            return Ok(self.first_value(c));
        }
        Ok(at(&self.knowledge.simplex.value, x as usize)?.n)
    }
}
