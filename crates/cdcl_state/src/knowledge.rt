// What the clause search knows, and how what follows from bounds is written into the log as clauses.

use cdcl_forms::{Fact, Interner, Lit, Vocabulary, negated};
use cdcl_fuel::{Fault, at};
use cdcl_sat::{Reason, Theory};
use cdcl_simplex::Simplex;
use cdcl_steps::Log;
use std::alloc::Global;

/// The vocabulary, the log and the bounds.
#[derive(Drop)]
pub struct Knowledge {
    pub words: Vocabulary,
    pub log: Log,
    pub simplex: Simplex,
    /// Clauses of two bounds, or of an equation and a bound, that are in the log: two literals, and the clause.
    pairs: Interner<u64>,
    pair_clauses: Vec<u32>,
}

impl Knowledge {
    pub(crate) fn new(alloc: Global, words: Vocabulary) -> Knowledge {
        Knowledge {
            words,
            log: Log::new(alloc),
            simplex: Simplex::new(alloc),
            pairs: Interner::new(alloc),
            pair_clauses: Vec::new(alloc),
        }
    }

    /// The clause of two literals, if it is in the log.
    fn logged(&self, a: Lit, b: Lit) -> Result<Option<u32>, Fault> {
        match self.pairs.find(&[u64::from(a), u64::from(b)])? {
            Some(n) => Ok(Some(at(&self.pair_clauses, n as usize)?)),
            None => Ok(None),
        }
    }

    /// Notes the clause of two literals.
    fn keep(&mut self, a: Lit, b: Lit, id: u32) -> Result<(), Fault> {
        let n = self.pairs.intern(&[u64::from(a), u64::from(b)])?;
        if n as usize == self.pair_clauses.len() {
            self.pair_clauses.push(id)?;
        }
        Ok(())
    }

    /// What the truth of a literal says of a term.
    pub(crate) fn fact(&mut self, l: Lit) -> Result<Fact, Fault> {
        self.words.fact(l)?.ok_or(Fault::Broken)
    }

    /// The clause in the log that splits an equation: it, above, or below.
    pub(crate) fn split(&mut self, equation: Lit, above: Lit, below: Lit) -> Result<u32, Fault> {
        if let Some(id) = self.logged(equation, above)? {
            return Ok(id);
        }
        let id = self.log.split(equation, above, below)?;
        self.keep(equation, above, id)?;
        Ok(id)
    }

    /// The multiplier with the sign that the fact of a false literal takes: an inequality takes none below 0.
    pub(crate) fn oriented(&mut self, l: Lit, times: i128) -> Result<i128, Fault> {
        if self.fact(negated(l))?.is_equation {
            return Ok(times);
        }
        times.checked_abs().ok_or(Fault::Overflow)
    }

    /// The clause in the log that says that two facts of one sum exclude each other.
    fn opposed(&mut self, a: Lit, b: Lit) -> Result<u32, Fault> {
        let (a, b) = (a.min(b), a.max(b));
        if let Some(id) = self.logged(a, b)? {
            return Ok(id);
        }
        let s = self.fact(a)?;
        let t = self.fact(b)?;
        let sign = if s.term.linear == t.term.linear {
            -1
        } else {
            1
        };
        let (m, n) = if t.is_equation { (1, sign) } else { (sign, 1) };
        let m = self.oriented(negated(a), m)?;
        let n = self.oriented(negated(b), n)?;
        let id = self.log.sum(&[(negated(a), m), (negated(b), n)])?;
        self.keep(a, b, id)?;
        Ok(id)
    }
}

impl Theory for Knowledge {
    fn explained(&mut self, l: Lit, why: Reason) -> Result<u32, Fault> {
        match why {
            Reason::Bound(b) => self.opposed(negated(l), b),
            Reason::Fixed(lower, upper) => self.split(l, negated(upper), negated(lower)),
            _ => Err(Fault::Broken),
        }
    }

    fn learnt(&mut self, lits: &[Lit], hints: &[u32]) -> Result<u32, Fault> {
        self.log.learnt(lits, hints)
    }

    fn backtrack(&mut self, level: usize) -> Result<(), Fault> {
        self.simplex.backtrack(level)
    }
}
