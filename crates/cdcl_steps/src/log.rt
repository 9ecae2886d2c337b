// The log: steps in order, with the clauses, constants and closures that each made.

use crate::step::{Step, Stretch};
use cdcl_forms::{List, Lit, Term};
use cdcl_fuel::{Fault, at, put, small};
use std::alloc::Global;

pub(crate) const NONE: u32 = 0xFFFF_FFFF;

#[derive(Drop)]
pub struct Log {
    pub alloc: Global,
    pub(crate) steps: Vec<Step>,
    /// The first clause of each step.
    pub(crate) first: Vec<u32>,
    /// The step of each clause.
    pub(crate) step_of: Vec<u32>,
    pub(crate) lits: Vec<Lit>,
    pub(crate) numbers: Vec<u32>,
    pub(crate) factors: Vec<(Lit, i128)>,
    /// The step of each constant.
    pub(crate) constant_steps: Vec<u32>,
    /// The step of each application.
    pub(crate) application_steps: Vec<u32>,
    /// The step that made each closure, by variable.
    pub(crate) closure_steps: Vec<u32>,
}

impl Log {
    pub fn new(alloc: Global) -> Log {
        Log {
            alloc,
            steps: Vec::new(alloc),
            first: Vec::new(alloc),
            step_of: Vec::new(alloc),
            lits: Vec::new(alloc),
            numbers: Vec::new(alloc),
            factors: Vec::new(alloc),
            constant_steps: Vec::new(alloc),
            application_steps: Vec::new(alloc),
            closure_steps: Vec::new(alloc),
        }
    }

    /// How many steps there are.
    pub fn len(&self) -> usize {
        self.steps.len()
    }

    /// Adds a step that makes this many clauses. The number of the first.
    fn add(&mut self, step: Step, clauses: usize) -> Result<u32, Fault> {
        let place = small(self.steps.len())?;
        let first = small(self.step_of.len())?;
        self.steps.push(step)?;
        self.first.push(first)?;
        for _ in 0..clauses {
            self.step_of.push(place)?;
        }
        Ok(first)
    }

    fn keep_lits(&mut self, lits: &[Lit]) -> Result<Stretch, Fault> {
        let start = self.lits.len();
        self.lits.extend_from_slice(lits)?;
        Ok(Stretch {
            start,
            end: self.lits.len(),
        })
    }

    fn keep_numbers(&mut self, numbers: &[u32]) -> Result<Stretch, Fault> {
        let start = self.numbers.len();
        self.numbers.extend_from_slice(numbers)?;
        Ok(Stretch {
            start,
            end: self.numbers.len(),
        })
    }

    /// A new variable. If it is a closure, the next step makes it.
    pub fn fresh(&mut self, is_closure: bool) -> Result<(), Fault> {
        let step = if is_closure {
            small(self.steps.len())?
        } else {
            NONE
        };
        self.closure_steps.push(step)?;
        Ok(())
    }

    /// The root's literal. The first step: clause 0 says that variable 0 is true, clause 1 that the root is not.
    pub fn root(&mut self, l: Lit) -> Result<u32, Fault> {
        self.add(Step::Root(l), 2)
    }

    pub fn open_and(&mut self, v: u32, members: &[Lit]) -> Result<u32, Fault> {
        let lits = self.keep_lits(members)?;
        self.add(Step::OpenAnd(v, lits), 1)
    }

    pub fn open_or(&mut self, v: u32, members: &[Lit]) -> Result<u32, Fault> {
        let lits = self.keep_lits(members)?;
        self.add(Step::OpenOr(v, lits), members.len())
    }

    /// The body of a for-all at the constant that is the newest.
    pub fn open_forall(&mut self, v: u32, member: Lit) -> Result<u32, Fault> {
        self.constant_steps.push(small(self.steps.len())?)?;
        self.add(Step::OpenForall(v, member), 1)
    }

    /// A new application with a new constant.
    pub fn apply(&mut self, application: u32) -> Result<(), Fault> {
        let place = small(self.steps.len())?;
        self.constant_steps.push(place)?;
        self.application_steps.push(place)?;
        let _none = self.add(Step::Apply(application), 0)?;
        Ok(())
    }

    pub fn read(&mut self, v: u32, applications: &[u32], member: Lit) -> Result<u32, Fault> {
        let numbers = self.keep_numbers(applications)?;
        self.add(Step::Read(v, numbers, member), 1)
    }

    pub fn instance(&mut self, v: u32, terms: List, member: Lit) -> Result<u32, Fault> {
        self.add(Step::Instance(v, terms, member), 1)
    }

    pub fn split(&mut self, equation: Lit, above: Lit, below: Lit) -> Result<u32, Fault> {
        self.add(Step::Split(equation, above, below), 1)
    }

    pub fn sum(&mut self, factors: &[(Lit, i128)]) -> Result<u32, Fault> {
        let start = self.factors.len();
        self.factors.extend_from_slice(factors)?;
        let end = self.factors.len();
        self.add(Step::Sum(Stretch { start, end }), 1)
    }

    pub fn pair(&mut self, a: u32, b: u32, equations: &[Lit], values: Lit) -> Result<u32, Fault> {
        let lits = self.keep_lits(equations)?;
        self.add(Step::Pair(a, b, lits, values), 1)
    }

    pub fn predicate_pair(&mut self, v: u32, w: u32, equations: &[Lit]) -> Result<u32, Fault> {
        let lits = self.keep_lits(equations)?;
        self.add(Step::PredicatePair(v, w, lits), 1)
    }

    /// The newest constant as a quotient.
    pub fn divide(&mut self, by: i128, t: Term, least: Lit, below: Lit) -> Result<u32, Fault> {
        self.constant_steps.push(small(self.steps.len())?)?;
        self.add(Step::Divide(by, t, least, below), 2)
    }

    pub fn learnt(&mut self, clause: &[Lit], hints: &[u32]) -> Result<u32, Fault> {
        let lits = self.keep_lits(clause)?;
        let numbers = self.keep_numbers(hints)?;
        self.add(Step::Learnt(lits, numbers), 1)
    }

    pub(crate) fn lits_of(&self, s: Stretch) -> Result<&[Lit], Fault> {
        self.lits
            .as_slice()
            .get(s.start..s.end)
            .ok_or(Fault::Broken)
    }

    pub(crate) fn numbers_of(&self, s: Stretch) -> Result<&[u32], Fault> {
        self.numbers
            .as_slice()
            .get(s.start..s.end)
            .ok_or(Fault::Broken)
    }

    pub(crate) fn factors_of(&self, s: Stretch) -> Result<&[(Lit, i128)], Fault> {
        self.factors
            .as_slice()
            .get(s.start..s.end)
            .ok_or(Fault::Broken)
    }

    /// How many clauses step i made.
    pub(crate) fn clauses_of(&self, i: usize) -> Result<(u32, u32), Fault> {
        let start = at(&self.first, i)?;
        let end = match self.first.get(i.saturating_add(1)) {
            Some(end) => *end,
            None => small(self.step_of.len())?,
        };
        Ok((start, end))
    }

    /// A list of this many numbers that say nothing.
    pub(crate) fn unknown(&self, n: usize) -> Result<Vec<u32>, Fault> {
        let mut out: Vec<u32> = Vec::with_capacity(self.alloc, n)?;
        for _ in 0..n {
            out.push(NONE)?;
        }
        Ok(out)
    }

    pub(crate) fn set(list: &mut [u32], i: u32, x: u32) -> Result<(), Fault> {
        put(list, i as usize, x)
    }
}
