// All solutions of equations, by what each name is.

use crate::equation::{Equation, Part};
use cdcl_forms::Monomial;
use cdcl_fuel::{Fault, Fuel, floor_div, mul, sub};
use std::alloc::Global;

#[derive(Drop)]
enum Substitution {
    /// The equation has the name with coefficient 1 or -1.
    Solved(u32, Equation),
    /// The name is the sum of these.
    Changed(u32, Vec<Monomial>),
}

#[derive(Drop)]
pub struct Solution {
    alloc: Global,
    substitutions: Vec<Substitution>,
    /// The next new name.
    fresh: u32,
}

/// What an equation asks for next.
enum Next {
    Absurd,
    Trivial,
    /// This name has coefficient 1 or -1.
    Unit(u32),
    /// No name has; this one has the least coefficient.
    Least(Monomial),
}

impl Solution {
    /// No equations; new names begin at this number.
    pub fn new(alloc: Global, fresh: u32) -> Solution {
        Solution {
            alloc,
            substitutions: Vec::new(alloc),
            fresh,
        }
    }

    fn apply(&self, e: &mut Equation, fuel: &mut Fuel) -> Result<(), Fault> {
        for s in self.substitutions.as_slice() {
            fuel.spend(1)?;
            match s {
                Substitution::Solved(x, other) => {
                    let c = e.factor_of(*x);
                    if c != 0 {
                        let times = mul(c, other.factor_of(*x))?;
                        e.add(self.alloc, sub(0, times)?, other, fuel)?;
                    }
                }
                Substitution::Changed(x, sum) => e.change(self.alloc, *x, sum.as_slice(), fuel)?,
            }
        }
        Ok(())
    }

    /// What a sum is where the equations hold, with the combination of them that was added to it.
    pub fn reduced(&self, pairs: &[Monomial], fuel: &mut Fuel) -> Result<Equation, Fault> {
        let mut e = Equation::new(self.alloc, pairs, 0)?;
        self.apply(&mut e, fuel)?;
        Ok(e)
    }

    /// Takes equation number `given` in. A combination of the given ones that has no solution, if there is one.
    pub fn take(
        &mut self,
        given: u32,
        pairs: &[Monomial],
        constant: i128,
        fuel: &mut Fuel,
    ) -> Result<Option<Vec<Part>>, Fault> {
        let mut e = Equation::new(self.alloc, pairs, constant)?;
        e.parts.push(Part { given, times: 1 })?;
        self.apply(&mut e, fuel)?;
        for _ in 0..u64::MAX {
            fuel.spend(1)?;
            fuel.spend(e.monomials.len() as u64)?;
            match next_of(&mut e)? {
                Next::Absurd => return Ok(Some(e.parts)),
                Next::Trivial => return Ok(None),
                Next::Unit(x) => {
                    self.substitutions.push(Substitution::Solved(x, e))?;
                    return Ok(None);
                }
                Next::Least(least) => {
                    let sum = self.changed(&e, least)?;
                    e.change(self.alloc, least.name, sum.as_slice(), fuel)?;
                    self.substitutions
                        .push(Substitution::Changed(least.name, sum))?;
                }
            }
        }
        Err(Fault::Steps)
    }

    /// A new name minus the quotients by the least coefficient, for the name that has it.
    fn changed(&mut self, e: &Equation, least: Monomial) -> Result<Vec<Monomial>, Fault> {
        let mut sum: Vec<Monomial> = Vec::new(self.alloc);
        for m in e.monomials.as_slice() {
            if m.name == least.name {
                continue;
            }
            let q = floor_div(m.factor, least.factor)?;
            if q != 0 {
                sum.push(Monomial {
                    name: m.name,
                    factor: sub(0, q)?,
                })?;
            }
        }
        sum.push(Monomial {
            name: self.fresh,
            factor: 1,
        })?;
        self.fresh = self.fresh.checked_add(1).ok_or(Fault::Overflow)?;
        Ok(sum)
    }
}

fn next_of(e: &mut Equation) -> Result<Next, Fault> {
    let g = e.divisor()?;
    if g == 0 {
        return Ok(if e.constant == 0 {
            Next::Trivial
        } else {
            Next::Absurd
        });
    }
    if e.constant.checked_rem(g).ok_or(Fault::Overflow)? != 0 {
        return Ok(Next::Absurd);
    }
    if g > 1 {
        e.divide(g)?;
    }
    let mut least: Option<Monomial> = None;
    for m in e.monomials.as_slice() {
        if m.factor == 1 || m.factor == -1 {
            return Ok(Next::Unit(m.name));
        }
        let better = match least {
            Some(old) => m.factor.unsigned_abs() < old.factor.unsigned_abs(),
            None => true,
        };
        if better {
            least = Some(*m);
        }
    }
    match least {
        Some(m) => Ok(Next::Least(m)),
        None => Err(Fault::Broken),
    }
}
