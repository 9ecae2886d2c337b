// Which steps the last clause follows from, backwards from it.

use crate::log::{Log, NONE};
use crate::step::Step;
use cdcl_forms::{Definition, List, Lit, Term, Vocabulary, variable};
use cdcl_fuel::{Fault, Fuel, at, put};

/// The steps that are needed.
#[derive(Drop)]
pub(crate) struct Needs {
    pub(crate) steps: Vec<bool>,
}

impl Needs {
    pub(crate) fn of(log: &Log, words: &Vocabulary, fuel: &mut Fuel) -> Result<Needs, Fault> {
        let n = log.steps.len();
        let mut steps: Vec<bool> = Vec::with_capacity(log.alloc, n)?;
        for i in 0..n {
            steps.push(i == 0 || i.wrapping_add(1) == n)?;
        }
        let mut needs = Needs { steps };
        for i in (0..n).rev() {
            fuel.spend(1)?;
            if at(&needs.steps, i)? {
                needs.step(log, words, i, fuel)?;
            }
        }
        Ok(needs)
    }

    fn need(&mut self, step: u32) -> Result<(), Fault> {
        put(&mut self.steps, step as usize, true)
    }

    fn term(&mut self, log: &Log, words: &Vocabulary, t: Term) -> Result<(), Fault> {
        for p in words.terms.pairs(t.linear)? {
            self.need(at(&log.constant_steps, p.name as usize)?)?;
        }
        Ok(())
    }

    fn list(&mut self, log: &Log, words: &Vocabulary, list: List) -> Result<(), Fault> {
        for t in words.terms.list(list)? {
            self.term(log, words, *t)?;
        }
        Ok(())
    }

    /// The steps that a literal needs which the step itself does not make.
    fn lit(&mut self, log: &Log, words: &Vocabulary, l: Lit) -> Result<(), Fault> {
        match words.definition(variable(l))? {
            Definition::Always => Ok(()),
            Definition::AtLeastZero(t) | Definition::IsZero(t) => self.term(log, words, t),
            Definition::Predicate(_, list) => self.list(log, words, list),
            Definition::Closure(_, _) => {
                let step = at(&log.closure_steps, variable(l))?;
                if step == NONE {
                    return Err(Fault::Broken);
                }
                self.need(step)
            }
        }
    }

    fn lits(
        &mut self,
        log: &Log,
        words: &Vocabulary,
        lits: &[Lit],
        fuel: &mut Fuel,
    ) -> Result<(), Fault> {
        fuel.spend(lits.len() as u64)?;
        for l in lits {
            self.lit(log, words, *l)?;
        }
        Ok(())
    }

    fn variable(&mut self, log: &Log, words: &Vocabulary, v: u32) -> Result<(), Fault> {
        self.lit(log, words, cdcl_forms::literal(v, true)?)
    }

    fn application(&mut self, log: &Log, a: u32) -> Result<(), Fault> {
        self.need(at(&log.application_steps, a as usize)?)
    }

    fn step(
        &mut self,
        log: &Log,
        words: &Vocabulary,
        i: usize,
        fuel: &mut Fuel,
    ) -> Result<(), Fault> {
        match at(&log.steps, i)? {
            Step::Root(_) => Ok(()),
            Step::OpenAnd(v, _) | Step::OpenOr(v, _) | Step::OpenForall(v, _) => self.variable(
                log, words, v,
            ),
            Step::Apply(a) => self.list(log, words, words.application(a)?.arguments),
            Step::Read(v, applications, _) => {
                for a in log.numbers_of(applications)? {
                    self.application(log, *a)?;
                }
                self.variable(log, words, v)
            }
            Step::Instance(v, terms, _) => {
                self.list(log, words, terms)?;
                self.variable(log, words, v)
            }
            Step::Split(equation, _, _) => self.lit(log, words, equation),
            Step::Sum(factors) => {
                for x in log.factors_of(factors)? {
                    fuel.spend(1)?;
                    self.lit(log, words, x.0)?;
                }
                Ok(())
            }
            Step::Pair(a, b, _, _) => {
                self.application(log, a)?;
                self.application(log, b)
            }
            Step::PredicatePair(v, w, _) => {
                self.variable(log, words, v)?;
                self.variable(log, words, w)
            }
            Step::Divide(_, t, _, _) => self.term(log, words, t),
            Step::Learnt(lits, hints) => {
                self.lits(log, words, log.lits_of(lits)?, fuel)?;
                let hints = log.numbers_of(hints)?;
                fuel.spend(hints.len() as u64)?;
                for h in hints {
                    self.need(at(&log.step_of, *h as usize)?)?;
                }
                Ok(())
            }
        }
    }
}
