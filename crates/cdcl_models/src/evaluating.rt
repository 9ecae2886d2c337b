// The truth of formulas in a finite model, as far as it is known.

use crate::tables::Model;
use cdcl_forms::{List, Node, Term, Vocabulary};
use cdcl_fuel::{Fault, Fuel, add, mul};
use std::alloc::Global;

/// How deep a formula may be.
const DEEPEST: u32 = 5000;

/// What evaluates formulas: the values of their names, where they are known.
#[derive(Drop)]
pub struct Evaluator {
    /// Whether functions and predicates have their defaults outside of the rows; else they are unknown there.
    total: bool,
    names: Vec<Option<i128>>,
    row: Vec<i128>,
}

impl Evaluator {
    pub fn new(alloc: Global, total: bool) -> Evaluator {
        Evaluator {
            total,
            names: Vec::new(alloc),
            row: Vec::new(alloc),
        }
    }

    /// The truth of a formula where its names have these values and then those; None where it is not known.
    pub fn truth(
        &mut self,
        words: &Vocabulary,
        model: &Model,
        node: u32,
        around: &[i128],
        values: &[i128],
        fuel: &mut Fuel,
    ) -> Result<Option<bool>, Fault> {
        self.names.clear();
        for x in around {
            self.names.push(Some(*x))?;
        }
        for x in values {
            self.names.push(Some(*x))?;
        }
        self.evaluate(words, model, node, DEEPEST, fuel)
    }

    fn evaluate(
        &mut self,
        words: &Vocabulary,
        model: &Model,
        node: u32,
        room: u32,
        fuel: &mut Fuel,
    ) -> Result<Option<bool>, Fault> {
        let Some(room) = room.checked_sub(1) else {
            return Ok(None);
        };
        fuel.spend(1)?;
        let (body, value) = match words.tree.node(node)? {
            Node::And(span) | Node::Or(span) => {
                let decisive = matches!(words.tree.node(node)?, Node::Or(_));
                let mut known = true;
                for i in 0..span.count {
                    match self.evaluate(words, model, words.tree.member(span, i)?, room, fuel)? {
                        Some(truth) if truth == decisive => return Ok(Some(decisive)),
                        Some(_) => {}
                        None => known = false,
                    }
                }
                return Ok(if known { Some(!decisive) } else { None });
            }
            Node::Read(function, arguments, rest) => (
                rest,
                self.application(words, model, function, arguments, fuel)?,
            ),
            Node::Forall(body) | Node::Exists(body) => (body, None),
            atom => return self.atom(words, model, atom, fuel),
        };
        self.names.push(value)?;
        let truth = self.evaluate(words, model, body, room, fuel)?;
        let _value = self.names.pop();
        Ok(truth)
    }

    fn atom(
        &mut self,
        words: &Vocabulary,
        model: &Model,
        atom: Node,
        fuel: &mut Fuel,
    ) -> Result<Option<bool>, Fault> {
        match atom {
            Node::Equation(t) => Ok(self.value(words, t, fuel)?.map(|x| x == 0)),
            Node::Disequation(t) => Ok(self.value(words, t, fuel)?.map(|x| x != 0)),
            Node::Inequality(t) => Ok(self.value(words, t, fuel)?.map(|x| x >= 0)),
            Node::Predicate(p, arguments) => self.predicate(words, model, p, arguments, fuel),
            Node::NotPredicate(p, arguments) => Ok(
                self.predicate(words, model, p, arguments, fuel)?
                    .map(|truth| !truth),
            ),
            Node::OtherValue(function, arguments, t) => {
                let found = self.application(words, model, function, arguments, fuel)?;
                let named = self.value(words, t, fuel)?;
                Ok(match (found, named) {
                    (Some(x), Some(y)) => Some(x != y),
                    _ => None,
                })
            }
            _ => Ok(None),
        }
    }

    fn predicate(
        &mut self,
        words: &Vocabulary,
        model: &Model,
        p: u32,
        arguments: List,
        fuel: &mut Fuel,
    ) -> Result<Option<bool>, Fault> {
        if !self.arguments(words, arguments, fuel)? {
            return Ok(None);
        }
        model.truth(p, self.row.as_slice(), self.total, fuel)
    }

    fn application(
        &mut self,
        words: &Vocabulary,
        model: &Model,
        f: u32,
        arguments: List,
        fuel: &mut Fuel,
    ) -> Result<Option<i128>, Fault> {
        if !self.arguments(words, arguments, fuel)? {
            return Ok(None);
        }
        model.value(f, self.row.as_slice(), self.total, fuel)
    }

    /// Puts the values of the terms into the row; false where one is not known.
    fn arguments(
        &mut self,
        words: &Vocabulary,
        arguments: List,
        fuel: &mut Fuel,
    ) -> Result<bool, Fault> {
        self.row.clear();
        for t in words.terms.list(arguments)? {
            match self.value(words, *t, fuel)? {
                Some(x) => self.row.push(x)?,
                None => return Ok(false),
            }
        }
        Ok(true)
    }

    /// The value of a term; None where a name of it has none, or where it leaves the range.
    fn value(&self, words: &Vocabulary, t: Term, fuel: &mut Fuel) -> Result<Option<i128>, Fault> {
        let mut sum = t.constant;
        let pairs = words.terms.pairs(t.linear)?;
        fuel.spend(pairs.len() as u64)?;
        for m in pairs {
            let x = match self.names.get(m.name as usize) {
                Some(Some(x)) => *x,
                Some(None) => return Ok(None),
                None => return Err(Fault::Broken),
            };
            let Ok(part) = mul(m.factor, x) else {
                return Ok(None);
            };
            let Ok(more) = add(sum, part) else {
                return Ok(None);
            };
            sum = more;
        }
        Ok(Some(sum))
    }
}
