// Closures that say that a number divides a term: one instance, at the quotient, says all.

use crate::state::State;
use cdcl_forms::{List, Node, Term, Terms};
use cdcl_fuel::{Fault, small, sub};

/// A term, and the number that is to divide it.
#[derive(Clone, Copy)]
struct Divided {
    term: Term,
    by: i128,
}

impl State {
    /// A for-some: by its quotient if it is a division, else by instances.
    pub(crate) fn open_exists(&mut self, v: u32, body: u32, list: List) -> Result<(), Fault> {
        let Some(x) = self.divided(body, list)? else {
            self.to_register.push(v)?;
            return Ok(());
        };
        let c = self.quotient(x)?;
        let name = self.knowledge.words.terms.name(c)?;
        let terms = self.knowledge.words.terms.list_of(&[name])?;
        self.instance_of(v, terms)
    }

    /// What is divided, if the body of a for-some over the names of the list is an equation with a multiple of its name.
    fn divided(&mut self, body: u32, list: List) -> Result<Option<Divided>, Fault> {
        let Node::Equation(t) = self.knowledge.words.tree.node(body)? else {
            return Ok(None);
        };
        let terms = &mut self.knowledge.words.terms;
        let name = small(terms.list(list)?.len())?;
        let factor = terms.factor_of(t.linear, name)?;
        if factor == 0 {
            return Ok(None);
        }
        let rest = Term {
            linear: terms.without(t.linear, name)?,
            constant: t.constant,
        };
        let rest = terms.put_in(rest, list)?;
        let term = if factor < 0 { rest } else { terms.minus(rest)? };
        Ok(Some(Divided {
            term,
            by: factor.checked_abs().ok_or(Fault::Overflow)?,
        }))
    }

    /// The constant of a quotient.
    fn quotient(&mut self, x: Divided) -> Result<u32, Fault> {
        let (low, high) = words(x.term.constant);
        let (by_low, by_high) = words(x.by);
        let key = [u64::from(x.term.linear), low, high, by_low, by_high];
        let place = self.quotients.intern(&key)?;
        if let Some(c) = self.quotient_constants.get(place as usize) {
            return Ok(*c);
        }
        let c = self.knowledge.words.constant()?;
        self.quotient_constants.push(c)?;
        self.divide(x, c)?;
        Ok(c)
    }

    /// A new constant is the quotient: what is left is at least 0, and less than the divisor.
    fn divide(&mut self, x: Divided, c: u32) -> Result<(), Fault> {
        let name = self.knowledge.words.terms.name(c)?;
        let by = sub(0, x.by)?;
        let rest = self.knowledge.words.terms.combine(1, x.term, by, name)?;
        let least = self.inequality(rest)?;
        let most = Terms::number(sub(x.by, 1)?);
        let below = self.knowledge.words.terms.combine(-1, rest, 1, most)?;
        let below = self.inequality(below)?;
        let id = self.knowledge.log.divide(x.by, x.term, least, below)?;
        self.input(&[least], id)?;
        self.input(&[below], id.saturating_add(1))
    }
}

/// The two words of a number, the lower first.
pub(crate) fn words(k: i128) -> (u64, u64) {
    let bits = k.cast_unsigned();
    ((bits & 0xFFFF_FFFF_FFFF_FFFF) as u64, (bits >> 64) as u64)
}
