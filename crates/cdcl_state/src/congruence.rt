// Congruence in the present model: applications of one function with equal arguments and other values, and variables of one
// predicate with equal arguments and other truth, get a clause (Nelson and Oppen, Fast decision procedures based on congruence
// closure, 1980).

use crate::divisions::words;
use crate::state::State;
use cdcl_forms::{Definition, Interner, List, Lit, literal, negated};
use cdcl_fuel::{Fault, at, put};

/// The first true and the first false variable of a predicate at some arguments.
#[derive(Clone, Copy)]
struct Firsts {
    yes: Option<u32>,
    no: Option<u32>,
}

impl State {
    /// Whether applications or predicates differ at equal arguments, so that clauses were made.
    pub fn congruence(&mut self) -> Result<bool, Fault> {
        let mut any = false;
        for f in 0..self.knowledge.words.functions() {
            if self.function_pairs(f)? {
                any = true;
            }
        }
        for p in 0..self.knowledge.words.predicates() {
            if self.predicate_pairs(p)? {
                any = true;
            }
        }
        Ok(any)
    }

    /// The values of arguments, as words, into the key.
    fn argument_words(&mut self, list: List) -> Result<(), Fault> {
        self.key.clear();
        let terms = self.knowledge.words.terms.list(list)?;
        self.fuel.spend(terms.len() as u64)?;
        for t in terms {
            let value = self
                .knowledge
                .words
                .terms
                .value(*t, self.values.as_slice())?;
            let (low, high) = words(value);
            self.key.push(low)?;
            self.key.push(high)?;
        }
        Ok(())
    }

    /// The applications of a function: each is compared with the first at equal arguments.
    fn function_pairs(&mut self, f: usize) -> Result<bool, Fault> {
        let mut any = false;
        let mut seen: Interner<u64> = Interner::new(self.alloc);
        let mut firsts: Vec<u32> = Vec::new(self.alloc);
        let n = self.knowledge.words.applications_of(f).len();
        for i in 0..n {
            self.fuel.spend(2)?;
            let b = at(self.knowledge.words.applications_of(f), i)?;
            let arguments = self.knowledge.words.application(b)?.arguments;
            self.argument_words(arguments)?;
            let place = seen.intern(self.key.as_slice())? as usize;
            if place == firsts.len() {
                firsts.push(b)?;
                continue;
            }
            if self.pair(at(&firsts, place)?, b)? {
                any = true;
            }
        }
        Ok(any)
    }

    /// The clause of two applications at equal values, if theirs differ.
    fn pair(&mut self, a: u32, b: u32) -> Result<bool, Fault> {
        let x = self.knowledge.words.application(a)?;
        let y = self.knowledge.words.application(b)?;
        if at(&self.values, x.constant as usize)? == at(&self.values, y.constant as usize)? {
            return Ok(false);
        }
        let c = self.knowledge.words.terms.name(x.constant)?;
        let d = self.knowledge.words.terms.name(y.constant)?;
        let difference = self.knowledge.words.terms.combine(1, c, -1, d)?;
        let values = self.equation(difference)?;
        let mut lits = self.argument_equations(x.arguments, y.arguments)?;
        let id = self.knowledge.log.pair(a, b, lits.as_slice(), values)?;
        for l in lits.iter_mut() {
            *l = negated(*l);
        }
        lits.push(values)?;
        self.input(lits.as_slice(), id)?;
        Ok(true)
    }

    /// The literals that say of two lists of arguments that they are equal, one for each place.
    fn argument_equations(&mut self, a: List, b: List) -> Result<Vec<Lit>, Fault> {
        let n = self.knowledge.words.terms.list(a)?.len();
        let mut out: Vec<Lit> = Vec::with_capacity(self.alloc, n)?;
        for i in 0..n {
            let s = at(self.knowledge.words.terms.list(a)?, i)?;
            let t = at(self.knowledge.words.terms.list(b)?, i)?;
            let difference = self.knowledge.words.terms.combine(1, s, -1, t)?;
            let l = self.equation(difference)?;
            out.push(l)?;
        }
        Ok(out)
    }

    /// The variables of a predicate: each is compared with the first at equal arguments that has the other truth.
    fn predicate_pairs(&mut self, p: usize) -> Result<bool, Fault> {
        let mut any = false;
        let mut seen: Interner<u64> = Interner::new(self.alloc);
        let mut rows: Vec<Firsts> = Vec::new(self.alloc);
        let n = self.knowledge.words.variables_of(p).len();
        for i in 0..n {
            self.fuel.spend(2)?;
            let v = at(self.knowledge.words.variables_of(p), i)?;
            let is_true = self.sat.value_of(literal(v, true)?)? == 1;
            if !at(&self.sat.needed, literal(v, is_true)? as usize)? {
                continue;
            }
            let arguments = self.arguments_of(v)?;
            self.argument_words(arguments)?;
            let place = seen.intern(self.key.as_slice())? as usize;
            if place == rows.len() {
                rows.push(Firsts {
                    yes: None,
                    no: None,
                })?;
            }
            let row = with(at(&rows, place)?, v, is_true);
            put(&mut rows, place, row)?;
            if self.opposed(row, v, is_true)? {
                any = true;
            }
        }
        Ok(any)
    }

    /// The clause of a variable and the first of the other truth at the same arguments, if there is one.
    fn opposed(&mut self, row: Firsts, v: u32, is_true: bool) -> Result<bool, Fault> {
        let (t, f) = if is_true {
            (Some(v), row.no)
        } else {
            (row.yes, Some(v))
        };
        let (Some(t), Some(f)) = (t, f) else {
            return Ok(false);
        };
        self.predicate_pair(t, f)?;
        Ok(true)
    }

    fn arguments_of(&self, v: u32) -> Result<List, Fault> {
        match self.knowledge.words.definition(v as usize)? {
            Definition::Predicate(_, list) => Ok(list),
            _ => Err(Fault::Broken),
        }
    }

    /// The clause of a true and a false variable of one predicate.
    fn predicate_pair(&mut self, t: u32, f: u32) -> Result<(), Fault> {
        let a = self.arguments_of(t)?;
        let b = self.arguments_of(f)?;
        let mut lits = self.argument_equations(a, b)?;
        let id = self.knowledge.log.predicate_pair(t, f, lits.as_slice())?;
        for l in lits.iter_mut() {
            *l = negated(*l);
        }
        lits.push(literal(t, false)?)?;
        lits.push(literal(f, true)?)?;
        self.input(lits.as_slice(), id)
    }
}

/// The row with a variable as the first of its truth, if there was none.
fn with(row: Firsts, v: u32, is_true: bool) -> Firsts {
    if is_true {
        Firsts {
            yes: Some(row.yes.unwrap_or(v)),
            no: row.no,
        }
    } else {
        Firsts {
            yes: row.yes,
            no: Some(row.no.unwrap_or(v)),
        }
    }
}
