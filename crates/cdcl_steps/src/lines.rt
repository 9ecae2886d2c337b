// The lines of a clause proof: the needed steps, with all numbers anew.

use crate::log::{Log, NONE};
use crate::needs::Needs;
use crate::step::{Step, Stretch};
use cdcl_forms::{Definition, List, Lit, Term, Vocabulary, variable};
use cdcl_fuel::{Fault, Fuel, at, put, small};
use clause_proof::{Factor, Line, Literal};
use linear_term::{TermFault, in_range};
use sqlite_items::Items;
use std::alloc::Global;
use std::mem;

/// A clause proof: the root's literal, and the lines.
#[derive(Drop)]
pub struct Proof {
    pub root: Literal,
    pub lines: Items<Line>,
}

/// How many clauses a line deletes at least, but for the last.
const BATCH: usize = 16;

#[derive(Drop)]
struct Writer {
    alloc: Global,
    lines: Items<Line>,
    /// The new numbers, by the old ones.
    variables: Vec<u32>,
    constants: Vec<u32>,
    applications: Vec<u32>,
    clauses: Vec<u32>,
    next_variable: u32,
    next_constant: u32,
    next_application: u32,
    next_clause: u32,
    /// The last step that uses each clause.
    last_use: Vec<u32>,
    dead: Vec<u32>,
}

/// The proof that the root of the vocabulary is true, if the last clause of the log is empty.
pub fn write_proof(log: &Log, words: &Vocabulary, fuel: &mut Fuel) -> Result<Proof, Fault> {
    let needs = Needs::of(log, words, fuel)?;
    let mut w = Writer::new(log, words)?;
    w.find_uses(log, &needs)?;
    let mut root = Literal {
        variable: 0,
        positive: true,
    };
    let n = log.steps.len();
    for i in 0..n {
        fuel.spend(1)?;
        if !at(&needs.steps, i)? {
            continue;
        }
        if let Step::Root(l) = at(&log.steps, i)? {
            root = w.member(l)?;
        } else {
            w.step(log, words, i, fuel)?;
        }
        w.number_clauses(log, i)?;
        if i.wrapping_add(1) < n {
            w.delete(log, i)?;
        }
    }
    Ok(Proof {
        root,
        lines: w.lines_of(),
    })
}

impl Writer {
    fn new(log: &Log, words: &Vocabulary) -> Result<Writer, Fault> {
        let mut variables = log.unknown(words.len())?;
        Log::set(&mut variables, 0, 0)?;
        Ok(Writer {
            alloc: log.alloc,
            lines: Items::new(log.alloc),
            variables,
            constants: log.unknown(log.constant_steps.len())?,
            applications: log.unknown(log.application_steps.len())?,
            clauses: log.unknown(log.step_of.len())?,
            next_variable: 1,
            next_constant: 0,
            next_application: 0,
            next_clause: 0,
            last_use: log.unknown(log.step_of.len())?,
            dead: Vec::new(log.alloc),
        })
    }

    fn lines_of(self) -> Items<Line> {
        let Writer { lines, .. } = self;
        lines
    }

    fn find_uses(&mut self, log: &Log, needs: &Needs) -> Result<(), Fault> {
        for i in 0..log.steps.len() {
            if let Step::Learnt(_, hints) = at(&log.steps, i)?
                && at(&needs.steps, i)?
            {
                for h in log.numbers_of(hints)? {
                    Log::set(&mut self.last_use, *h, small(i)?)?;
                }
            }
        }
        Ok(())
    }

    fn number_clauses(&mut self, log: &Log, i: usize) -> Result<(), Fault> {
        let (start, end) = log.clauses_of(i)?;
        for c in start..end {
            Log::set(&mut self.clauses, c, self.next_clause)?;
            self.next_clause = self.next_clause.checked_add(1).ok_or(Fault::Overflow)?;
        }
        Ok(())
    }

    /// Deletes the clauses that no later step uses.
    fn delete(&mut self, log: &Log, i: usize) -> Result<(), Fault> {
        let (start, end) = log.clauses_of(i)?;
        for c in start..end {
            if at(&self.last_use, c as usize)? == NONE {
                self.dead.push(at(&self.clauses, c as usize)?)?;
            }
        }
        let now = small(i)?;
        if let Step::Learnt(_, hints) = at(&log.steps, i)? {
            for h in log.numbers_of(hints)? {
                if at(&self.last_use, *h as usize)? == now {
                    self.dead.push(at(&self.clauses, *h as usize)?)?;
                }
            }
        }
        if self.dead.len() >= BATCH {
            let mut dead = mem::replace(&mut self.dead, Vec::new(self.alloc));
            dead.as_mut_slice().sort_unstable();
            dead.dedup();
            self.lines.push(Line::Delete(Items::from_vec(dead)))?;
        }
        Ok(())
    }

    fn term(&self, words: &Vocabulary, t: Term) -> Result<linear_term::Term, Fault> {
        if !in_range(t.constant) {
            return Err(Fault::Overflow);
        }
        let mut out = linear_term::Term::number(self.alloc, t.constant);
        for p in words.terms.pairs(t.linear)? {
            let c = at(&self.constants, p.name as usize)?;
            if c == NONE {
                return Err(Fault::Broken);
            }
            if !in_range(p.factor) {
                return Err(Fault::Overflow);
            }
            let name = linear_term::Term::name(self.alloc, c);
            out = match linear_term::Term::combine(1, &out, p.factor, &name) {
                Ok(sum) => sum,
                Err(TermFault::Memory) => return Err(Fault::Memory),
                Err(TermFault::Overflow(_)) => return Err(Fault::Overflow),
            };
        }
        Ok(out)
    }

    fn list(&self, words: &Vocabulary, list: List) -> Result<Items<linear_term::Term>, Fault> {
        let mut out = Items::new(self.alloc);
        for t in words.terms.list(list)? {
            out.push(self.term(words, *t)?)?;
        }
        Ok(out)
    }

    fn new_constant(&mut self, c: u32) -> Result<(), Fault> {
        Log::set(&mut self.constants, c, self.next_constant)?;
        self.next_constant = self.next_constant.checked_add(1).ok_or(Fault::Overflow)?;
        Ok(())
    }

    /// A literal that is there, by its new number.
    fn known(&self, l: Lit) -> Result<Literal, Fault> {
        let n = at(&self.variables, variable(l))?;
        if n == NONE {
            return Err(Fault::Broken);
        }
        Ok(Literal {
            variable: n,
            positive: l % 2 == 0,
        })
    }

    /// A literal that the line makes if it is not there.
    fn member(&mut self, l: Lit) -> Result<Literal, Fault> {
        if at(&self.variables, variable(l))? == NONE {
            put(&mut self.variables, variable(l), self.next_variable)?;
            self.next_variable = self.next_variable.checked_add(1).ok_or(Fault::Overflow)?;
        }
        self.known(l)
    }

    fn members(&mut self, log: &Log, s: Stretch) -> Result<Items<Literal>, Fault> {
        let mut out = Items::new(self.alloc);
        for l in log.lits_of(s)? {
            out.push(self.member(*l)?)?;
        }
        Ok(out)
    }

    /// A literal that has to be there: an atom is made by a line of its own.
    fn made(&mut self, words: &Vocabulary, l: Lit) -> Result<Literal, Fault> {
        if at(&self.variables, variable(l))? != NONE {
            return self.known(l);
        }
        let line = match words.definition(variable(l))? {
            Definition::AtLeastZero(t) => Line::Inequality(self.term(words, t)?),
            Definition::IsZero(t) => Line::Equation(self.term(words, t)?),
            Definition::Predicate(p, list) => Line::Predicate(p, self.list(words, list)?),
            _ => return Err(Fault::Broken),
        };
        self.lines.push(line)?;
        self.member(l)
    }

    fn variable_of(&mut self, words: &Vocabulary, v: u32) -> Result<u32, Fault> {
        let l = cdcl_forms::literal(v, true)?;
        Ok(self.made(words, l)?.variable)
    }

    fn numbers(&self, of: &[u32], numbers: &[u32]) -> Result<Items<u32>, Fault> {
        let mut out = Items::new(self.alloc);
        for n in numbers {
            let m = at(of, *n as usize)?;
            if m == NONE {
                return Err(Fault::Broken);
            }
            out.push(m)?;
        }
        Ok(out)
    }

    fn application(&self, a: u32) -> Result<u32, Fault> {
        let n = at(&self.applications, a as usize)?;
        if n == NONE { Err(Fault::Broken) } else { Ok(n) }
    }

    fn step(
        &mut self,
        log: &Log,
        words: &Vocabulary,
        i: usize,
        fuel: &mut Fuel,
    ) -> Result<(), Fault> {
        let line = match at(&log.steps, i)? {
            Step::Root(_) => return Ok(()),
            Step::OpenAnd(v, members) | Step::OpenOr(v, members) => {
                fuel.spend((members.end.saturating_sub(members.start)) as u64)?;
                let v = self.variable_of(words, v)?;
                Line::Open(v, self.members(log, members)?)
            }
            Step::OpenForall(v, member) => self.forall(log, words, i, v, member)?,
            Step::Apply(a) => self.apply(words, a)?,
            Step::Read(v, applications, member) => {
                let v = self.variable_of(words, v)?;
                let applications = self.numbers(&self.applications, log.numbers_of(applications)?)?;
                Line::Read(v, applications, self.member(member)?)
            }
            Step::Instance(v, terms, member) => {
                let v = self.variable_of(words, v)?;
                let terms = self.list(words, terms)?;
                Line::Instance(v, terms, self.member(member)?)
            }
            Step::Split(equation, above, below) => self.split(words, equation, above, below)?,
            Step::Sum(factors) => self.sum(log, words, factors, fuel)?,
            Step::Pair(a, b, equations, values) => self.pair(log, (a, b), equations, values)?,
            Step::PredicatePair(v, w, equations) => {
                let v = self.variable_of(words, v)?;
                let w = self.variable_of(words, w)?;
                Line::PredicatePair(v, w, self.members(log, equations)?)
            }
            Step::Divide(by, t, least, below) => {
                let t = self.term(words, t)?;
                self.constant_of(log, i)?;
                let least = self.member(least)?;
                Line::Divide(by, t, least, self.member(below)?)
            }
            Step::Learnt(lits, hints) => self.learnt(log, words, lits, hints, fuel)?,
        };
        self.lines.push(line)?;
        Ok(())
    }

    fn split(
        &mut self,
        words: &Vocabulary,
        equation: Lit,
        above: Lit,
        below: Lit,
    ) -> Result<Line, Fault> {
        let equation = self.made(words, equation)?;
        let above = self.member(above)?;
        Ok(Line::Split(equation.variable, above, self.member(below)?))
    }

    /// The line of two applications, by their numbers.
    fn pair(
        &mut self,
        log: &Log,
        pair: (u32, u32),
        equations: Stretch,
        values: Lit,
    ) -> Result<Line, Fault> {
        let (a, b) = (self.application(pair.0)?, self.application(pair.1)?);
        let values = self.member(values)?;
        Ok(Line::Pair(a, b, self.members(log, equations)?, values))
    }

    fn forall(
        &mut self,
        log: &Log,
        words: &Vocabulary,
        i: usize,
        v: u32,
        member: Lit,
    ) -> Result<Line, Fault> {
        let v = self.variable_of(words, v)?;
        self.constant_of(log, i)?;
        let mut members = Items::new(self.alloc);
        members.push(self.member(member)?)?;
        Ok(Line::Open(v, members))
    }

    /// The constant that step i made.
    fn constant_of(&mut self, log: &Log, i: usize) -> Result<(), Fault> {
        let step = small(i)?;
        match log.constant_steps.as_slice().binary_search(&step) {
            Ok(c) => self.new_constant(small(c)?),
            Err(_) => Err(Fault::Broken),
        }
    }

    fn apply(&mut self, words: &Vocabulary, a: u32) -> Result<Line, Fault> {
        let application = words.application(a)?;
        let terms = self.list(words, application.arguments)?;
        self.new_constant(application.constant)?;
        Log::set(&mut self.applications, a, self.next_application)?;
        self.next_application = self.next_application.checked_add(1).ok_or(Fault::Overflow)?;
        Ok(Line::Apply(application.function, terms))
    }

    fn sum(
        &mut self,
        log: &Log,
        words: &Vocabulary,
        factors: Stretch,
        fuel: &mut Fuel,
    ) -> Result<Line, Fault> {
        let mut out = Items::new(self.alloc);
        for x in log.factors_of(factors)? {
            fuel.spend(1)?;
            let literal = self.made(words, x.0)?;
            out.push(Factor { literal, by: x.1 })?;
        }
        Ok(Line::Sum(out))
    }

    fn learnt(
        &mut self,
        log: &Log,
        words: &Vocabulary,
        lits: Stretch,
        hints: Stretch,
        fuel: &mut Fuel,
    ) -> Result<Line, Fault> {
        let mut clause = Items::new(self.alloc);
        for l in log.lits_of(lits)? {
            clause.push(self.made(words, *l)?)?;
        }
        let hints = log.numbers_of(hints)?;
        fuel.spend(hints.len() as u64)?;
        Ok(Line::Resolve(clause, self.numbers(&self.clauses, hints)?))
    }
}
