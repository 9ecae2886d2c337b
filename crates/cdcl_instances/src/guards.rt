// Guards: predicates that have to be true wherever a formula is. Where predicates are false but at the rows of tables, the formula is
// true at no other values of its names than those at which its guards are rows.

use cdcl_forms::{List, Monomial, Node, Term, Vocabulary};
use cdcl_fuel::{Fault, Fuel, at, near, small};
use cdcl_matching::{Multiple, Names, Pattern, Shape, Step, Symbol, Trigger, names_of};
use std::alloc::Global;

/// Collects the guards of one formula.
#[derive(Drop)]
struct Guards {
    alloc: Global,
    /// The terms of the names around the quantified ones.
    list: List,
    outer: u32,
    names: u32,
    patterns: Vec<Pattern>,
}

/// The guards of a formula over names that are the terms of the list, and this many quantified names after them; None where some
/// quantified name stands in no guard.
pub(crate) fn guard(
    alloc: Global,
    words: &mut Vocabulary,
    list: List,
    body: u32,
    names: u32,
    fuel: &mut Fuel,
) -> Result<Option<Trigger>, Fault> {
    let mut guards = Guards {
        alloc,
        list,
        outer: small(words.terms.list(list)?.len())?,
        names,
        patterns: Vec::new(alloc),
    };
    guards.collect(words, body, fuel)?;
    guards.trigger()
}

impl Guards {
    /// Takes the predicates among the members of conjunctions, also after the values of applications.
    fn collect(&mut self, words: &mut Vocabulary, body: u32, fuel: &mut Fuel) -> Result<(), Fault> {
        let mut open: Vec<u32> = Vec::new(self.alloc);
        open.push(body)?;
        for _ in 0..u64::MAX {
            let Some(node) = open.pop() else {
                return Ok(());
            };
            fuel.spend(4)?;
            match words.tree.node(node)? {
                Node::And(span) => {
                    for i in (0..span.count).rev() {
                        open.push(words.tree.member(span, i)?)?;
                    }
                }
                Node::Read(_, _, rest) => open.push(rest)?,
                Node::Predicate(p, arguments) => self.take(words, p, arguments)?,
                _ => {}
            }
        }
        Err(Fault::Steps)
    }

    /// Takes a predicate each argument of which has one quantified name at most, and no other name of a quantifier.
    fn take(&mut self, words: &mut Vocabulary, p: u32, arguments: List) -> Result<(), Fault> {
        let count = words.terms.list(arguments)?.len();
        let mut columns = Vec::with_capacity(self.alloc, count)?;
        for i in 0..count {
            let t = at(words.terms.list(arguments)?, i)?;
            let Some(shape) = self.shape(words, t)? else {
                return Ok(());
            };
            columns.push(Some(shape))?;
        }
        self.patterns.push(Pattern {
            symbol: Symbol::Predicate(p),
            columns,
        })?;
        Ok(())
    }

    fn shape(&self, words: &mut Vocabulary, t: Term) -> Result<Option<Shape>, Fault> {
        let mut multiples: Vec<Multiple> = Vec::new(self.alloc);
        let mut around: Vec<Monomial> = Vec::new(self.alloc);
        for m in words.terms.pairs(t.linear)? {
            let Some(name) = m.name.checked_sub(self.outer) else {
                around.push(*m)?;
                continue;
            };
            if name >= self.names || !multiples.is_empty() {
                return Ok(None);
            }
            multiples.push(Multiple {
                name,
                factor: m.factor,
            })?;
        }
        let linear = words.terms.linear(around.as_slice())?;
        let constant = t.constant;
        let rest = words.terms.put_in(Term { linear, constant }, self.list)?;
        Ok(Some(Shape { rest, multiples }))
    }

    /// Guards that have all quantified names together, each with a name that no earlier one has.
    fn trigger(&self) -> Result<Option<Trigger>, Fault> {
        let all = Names::below(self.names);
        let mut known = Names::none();
        let mut steps = Vec::new(self.alloc);
        for _ in 0..self.patterns.len() {
            let Some(i) = self.next(known)? else {
                break;
            };
            let pattern = near(&self.patterns, i)?;
            known = known.and(names_of(pattern));
            steps.push(Step::Match(pattern.copy(self.alloc)?))?;
        }
        Ok(if known == all {
            Some(Trigger { steps })
        } else {
            None
        })
    }

    /// A guard with a name that is not known, one that has a known name too if there is one.
    fn next(&self, known: Names) -> Result<Option<usize>, Fault> {
        let mut found = None;
        for i in 0..self.patterns.len() {
            let names = names_of(near(&self.patterns, i)?);
            if names.without(known).is_empty() {
                continue;
            }
            if !names.both(known).is_empty() {
                return Ok(Some(i));
            }
            if found.is_none() {
                found = Some(i);
            }
        }
        Ok(found)
    }
}
