// Equations with the combination of given ones that they are.

use cdcl_forms::Monomial;
use cdcl_fuel::{Fault, Fuel, gcd, mac, mul};
use std::alloc::Global;
use std::mem;

/// A given equation, by its number, with its multiplier.
#[derive(Clone, Copy)]
pub struct Part {
    pub given: u32,
    pub times: i128,
}

/// The sum of the monomials and the constant is 0. It is the sum of its parts, divided by a number.
#[derive(Drop)]
pub struct Equation {
    pub monomials: Vec<Monomial>,
    pub constant: i128,
    pub parts: Vec<Part>,
    pub over: i128,
}

/// m a + n b.
fn merged(
    alloc: Global,
    m: i128,
    a: &[Monomial],
    n: i128,
    b: &[Monomial],
) -> Result<Vec<Monomial>, Fault> {
    let mut out: Vec<Monomial> = Vec::new(alloc);
    let (mut i, mut j): (usize, usize) = (0, 0);
    for _ in 0..u64::MAX {
        let (x, y) = (a.get(i).copied(), b.get(j).copied());
        let (name, factor) = match (x, y) {
            (None, None) => return Ok(out),
            (Some(p), None) => {
                i = i.saturating_add(1);
                (p.name, mul(m, p.factor)?)
            }
            (None, Some(q)) => {
                j = j.saturating_add(1);
                (q.name, mul(n, q.factor)?)
            }
            (Some(p), Some(q)) => {
                let (left, right) = (p.name <= q.name, q.name <= p.name);
                if left {
                    i = i.saturating_add(1);
                }
                if right {
                    j = j.saturating_add(1);
                }
                let x = if left { mul(m, p.factor)? } else { 0 };
                let y = if right { mul(n, q.factor)? } else { 0 };
                (p.name.min(q.name), mac(1, x, 1, y)?)
            }
        };
        if factor != 0 {
            out.push(Monomial { name, factor })?;
        }
    }
    Err(Fault::Broken)
}

fn monomials_of(alloc: Global, parts: &[Part]) -> Result<Vec<Monomial>, Fault> {
    let mut out: Vec<Monomial> = Vec::with_capacity(alloc, parts.len())?;
    for p in parts {
        out.push(Monomial {
            name: p.given,
            factor: p.times,
        })?;
    }
    Ok(out)
}

fn parts_of(alloc: Global, monomials: &[Monomial], by: i128) -> Result<Vec<Part>, Fault> {
    let mut out: Vec<Part> = Vec::with_capacity(alloc, monomials.len())?;
    for m in monomials {
        out.push(Part {
            given: m.name,
            times: m.factor.checked_div(by).ok_or(Fault::Overflow)?,
        })?;
    }
    Ok(out)
}

impl Equation {
    pub fn new(alloc: Global, pairs: &[Monomial], constant: i128) -> Result<Equation, Fault> {
        Ok(Equation {
            monomials: Vec::from_slice(alloc, pairs)?,
            constant,
            parts: Vec::new(alloc),
            over: 1,
        })
    }

    /// What divides all coefficients.
    pub fn divisor(&self) -> Result<i128, Fault> {
        let mut g = 0;
        for m in self.monomials.as_slice() {
            if g != 1 {
                g = gcd(g, m.factor)?;
            }
        }
        Ok(g)
    }

    pub fn factor_of(&self, name: u32) -> i128 {
        for m in self.monomials.as_slice() {
            if m.name == name {
                return m.factor;
            }
        }
        0
    }

    pub(crate) fn divide(&mut self, by: i128) -> Result<(), Fault> {
        for m in self.monomials.iter_mut() {
            m.factor = m.factor.checked_div(by).ok_or(Fault::Overflow)?;
        }
        self.constant = self.constant.checked_div(by).ok_or(Fault::Overflow)?;
        self.over = mul(self.over, by)?;
        Ok(())
    }

    /// Adds c times another equation.
    pub(crate) fn add(
        &mut self,
        alloc: Global,
        c: i128,
        other: &Equation,
        fuel: &mut Fuel,
    ) -> Result<(), Fault> {
        fuel.spend(self.monomials.len() as u64)?;
        fuel.spend(other.monomials.len() as u64)?;
        let sum = merged(
            alloc,
            1,
            self.monomials.as_slice(),
            c,
            other.monomials.as_slice(),
        )?;
        let _old = mem::replace(&mut self.monomials, sum);
        self.constant = mac(c, other.constant, 1, self.constant)?;
        if other.parts.is_empty() {
            return Ok(());
        }
        self.add_parts(alloc, c, other, fuel)
    }

    fn add_parts(
        &mut self,
        alloc: Global,
        c: i128,
        other: &Equation,
        fuel: &mut Fuel,
    ) -> Result<(), Fault> {
        let g = gcd(self.over, other.over)?;
        let over = mul(self.over.checked_div(g).ok_or(Fault::Overflow)?, other.over)?;
        let m = over.checked_div(self.over).ok_or(Fault::Overflow)?;
        let n = mul(c, over.checked_div(other.over).ok_or(Fault::Overflow)?)?;
        let mine = monomials_of(alloc, self.parts.as_slice())?;
        let theirs = monomials_of(alloc, other.parts.as_slice())?;
        fuel.spend(mine.len() as u64)?;
        fuel.spend(theirs.len() as u64)?;
        let sum = merged(alloc, m, mine.as_slice(), n, theirs.as_slice())?;
        let mut g = over;
        for p in sum.as_slice() {
            if g != 1 {
                g = gcd(g, p.factor)?;
            }
        }
        self.over = over.checked_div(g).ok_or(Fault::Overflow)?;
        self.parts = parts_of(alloc, sum.as_slice(), g)?;
        Ok(())
    }

    /// The sum of the monomials in the place of a name.
    pub(crate) fn change(
        &mut self,
        alloc: Global,
        name: u32,
        sum: &[Monomial],
        fuel: &mut Fuel,
    ) -> Result<(), Fault> {
        let c = self.factor_of(name);
        if c == 0 {
            return Ok(());
        }
        fuel.spend(self.monomials.len() as u64)?;
        fuel.spend(sum.len() as u64)?;
        self.monomials.retain(|m| m.name != name);
        let sum = merged(alloc, 1, self.monomials.as_slice(), c, sum)?;
        let _old = mem::replace(&mut self.monomials, sum);
        Ok(())
    }
}
