// New variables with what they stand for, sums of simplex, and clauses to be taken in.

use crate::state::{Arithmetic, NONE, Pending, State};
use cdcl_forms::{Definition, Lit, Monomial, Signed, Term, Terms, literal};
use cdcl_fuel::{Fault, at, near_mut, put, small};

impl State {
    /// The literal of what a definition says.
    pub fn literal(&mut self, x: Signed) -> Result<Lit, Fault> {
        let known = self.knowledge.words.variable_of(x.definition)?;
        if known.is_new {
            self.make(known.number, x.definition)?;
        }
        literal(known.number, x.positive)
    }

    /// A new variable with what it stands for.
    pub(crate) fn make(&mut self, v: u32, definition: Definition) -> Result<(), Fault> {
        let is_closure = matches!(&definition, Definition::Closure(_, _));
        self.sat.fresh(is_closure)?;
        self.knowledge.log.fresh(is_closure)?;
        let arithmetic = match definition {
            Definition::AtLeastZero(t) => Some(self.arithmetic_of(t, false)?),
            Definition::IsZero(t) => Some(self.arithmetic_of(t, true)?),
            _ => None,
        };
        self.arithmetic.push(arithmetic)?;
        if let Some(a) = arithmetic {
            near_mut(&mut self.on, a.x as usize)?.push(v)?;
            if a.is_equation {
                self.equations.push(v)?;
                self.new_equations.push(v)?;
            }
        }
        if is_closure {
            self.to_open.push(v)?;
        }
        Ok(())
    }

    /// What an atom of a term says of the simplex variable of its coefficients.
    fn arithmetic_of(&mut self, t: Term, is_equation: bool) -> Result<Arithmetic, Fault> {
        let x = self.sum_of(t.linear)?;
        let bound = t.constant.checked_neg().ok_or(Fault::Overflow)?;
        Ok(Arithmetic {
            x,
            bound,
            is_equation,
        })
    }

    /// The first value of a constant: far from those of others, so that arguments are not equal by chance.
    pub(crate) fn first_value(&self, c: u32) -> i128 {
        if self.apart {
            i128::from(c).wrapping_mul(107).wrapping_add(10)
        } else {
            0
        }
    }

    /// The simplex variable of a constant.
    pub(crate) fn column(&mut self, c: u32) -> Result<u32, Fault> {
        for _ in self.columns.len()..(c as usize).saturating_add(1) {
            self.columns.push(NONE)?;
        }
        let x = at(&self.columns, c as usize)?;
        if x != NONE {
            return Ok(x);
        }
        let first = self.first_value(c);
        let x = self.knowledge.simplex.fresh(first)?;
        put(&mut self.columns, c as usize, x)?;
        let linear = self.knowledge.words.terms.name(c)?.linear;
        self.on.push(Vec::new(self.alloc))?;
        self.linear_of.push(linear)?;
        Ok(x)
    }

    /// The simplex variable of coefficients, which have no common divisor.
    fn sum_of(&mut self, linear: u32) -> Result<u32, Fault> {
        if let Some(c) = self.only_name(linear)? {
            return self.column(c);
        }
        for _ in self.sums.len()..(linear as usize).saturating_add(1) {
            self.sums.push(NONE)?;
        }
        let x = at(&self.sums, linear as usize)?;
        if x != NONE {
            return Ok(x);
        }
        let sum = self.columns_of(linear)?;
        let x = self.knowledge.simplex.sum(sum)?;
        put(&mut self.sums, linear as usize, x)?;
        self.on.push(Vec::new(self.alloc))?;
        self.linear_of.push(linear)?;
        Ok(x)
    }

    /// The name, where coefficients are that of one name alone, which is 1.
    fn only_name(&self, linear: u32) -> Result<Option<u32>, Fault> {
        Ok(match self.knowledge.words.terms.pairs(linear)? {
            [Monomial { name, factor: 1 }] => Some(*name),
            _ => None,
        })
    }

    /// Coefficients with the simplex variables of their names.
    fn columns_of(&mut self, linear: u32) -> Result<Vec<(u32, i64)>, Fault> {
        let n = self.knowledge.words.terms.pairs(linear)?.len();
        let mut sum: Vec<(u32, i64)> = Vec::with_capacity(self.alloc, n)?;
        for i in 0..n {
            let p = at(self.knowledge.words.terms.pairs(linear)?, i)?;
            let factor = i64::try_from(p.factor).map_err(|_| Fault::Overflow)?;
            let x = self.column(p.name)?;
            sum.push((x, factor))?;
        }
        Ok(sum)
    }

    /// The literal of t >= 0.
    pub(crate) fn inequality(&mut self, t: Term) -> Result<Lit, Fault> {
        let x = self.knowledge.words.inequality(t)?;
        self.literal(x)
    }

    /// The literal of t = 0.
    pub(crate) fn equation(&mut self, t: Term) -> Result<Lit, Fault> {
        let x = self.knowledge.words.equation(t)?;
        self.literal(x)
    }

    /// Takes in a clause that a model has to satisfy. The check of proofs takes a literal that stands twice for two, so a clause
    /// with such a one is derived without the second.
    pub fn input(&mut self, lits: &[Lit], id: u32) -> Result<(), Fault> {
        for l in lits {
            put(&mut self.sat.needed, *l as usize, true)?;
        }
        let mut once = Vec::from_slice(self.alloc, lits)?;
        once.as_mut_slice().sort_unstable();
        once.dedup();
        if once.len() == lits.len() {
            return self.enter(lits, id, true);
        }
        let derived = self.knowledge.log.learnt(once.as_slice(), &[id])?;
        self.enter(once.as_slice(), derived, true)
    }

    /// Puts a clause after those to be taken in.
    fn enter(&mut self, lits: &[Lit], id: u32, is_input: bool) -> Result<(), Fault> {
        let lits = Vec::from_slice(self.alloc, lits)?;
        self.queue.push_back(Pending { lits, id, is_input })?;
        Ok(())
    }

    /// Both bounds follow from each new equation.
    pub fn bound_equations(&mut self) -> Result<(), Fault> {
        for _ in 0..u64::MAX {
            let Some(v) = self.new_equations.pop() else {
                return Ok(());
            };
            self.bound_equation(v)?;
        }
        Err(Fault::Steps)
    }

    fn bound_equation(&mut self, v: u32) -> Result<(), Fault> {
        let t = self.equation_term(v)?;
        let low = self.inequality(t)?;
        let minus = self.knowledge.words.terms.minus(t)?;
        let high = self.inequality(minus)?;
        let other = literal(v, false)?;
        let id = self.knowledge.log.sum(&[(low, 1), (other, 1)])?;
        self.enter(&[other, low], id, false)?;
        let id = self.knowledge.log.sum(&[(high, 1), (other, -1)])?;
        self.enter(&[other, high], id, false)
    }

    /// The term that an equation says is 0.
    pub(crate) fn equation_term(&self, v: u32) -> Result<Term, Fault> {
        match self.knowledge.words.definition(v as usize)? {
            Definition::IsZero(t) => Ok(t),
            _ => Err(Fault::Broken),
        }
    }

    /// A false equation is above or below.
    pub(crate) fn split(&mut self, v: u32) -> Result<(), Fault> {
        let t = self.equation_term(v)?;
        let above = self.inequality(Terms::plus(t, -1)?)?;
        let minus = self.knowledge.words.terms.minus(t)?;
        let below = self.inequality(Terms::plus(minus, -1)?)?;
        let equation = literal(v, true)?;
        let id = self.knowledge.split(equation, above, below)?;
        self.input(&[equation, above, below], id)
    }

    /// How many simplex variables there are.
    pub(crate) fn widths(&self) -> Result<u32, Fault> {
        small(self.on.len())
    }
}
