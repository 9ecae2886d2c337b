// The patterns of a quantified formula: its applications and predicates, and what its comparisons say of single names.

use crate::pattern::{MOST_NAMES, Multiple, Names, Pattern, Shape, Symbol, names_of};
use cdcl_forms::{List, Monomial, Node, Term, Terms, Vocabulary};
use cdcl_fuel::{Fault, Fuel, at, near_mut, small};
use std::alloc::Global;

/// A pattern, the quantified names that stand in it, and the name that is its value, where it is an application.
#[derive(Drop)]
pub struct Found {
    pub pattern: Pattern,
    pub covers: Names,
    pub value: Option<u32>,
}

/// Collects the patterns of one formula.
#[derive(Drop)]
pub struct Collector {
    alloc: Global,
    /// The terms of the names around the quantified ones.
    list: List,
    outer: u32,
    names: u32,
    /// By name inside: its number as a name of patterns, where it is the value of an application.
    inner: Vec<Option<u32>>,
    next: u32,
    pub patterns: Vec<Found>,
    /// By quantified name: terms at which a comparison changes its truth.
    pub bounds: Vec<Vec<Term>>,
}

/// How deep a formula may be.
const DEEPEST: u32 = 5000;

impl Collector {
    /// For a formula over names that are the terms of the list, and this many quantified names after them.
    pub fn new(alloc: Global, terms: &Terms, list: List, names: u32) -> Result<Collector, Fault> {
        let mut bounds = Vec::new(alloc);
        for _ in 0..names {
            bounds.push(Vec::new(alloc))?;
        }
        Ok(Collector {
            alloc,
            list,
            outer: small(terms.list(list)?.len())?,
            names,
            inner: Vec::new(alloc),
            next: names,
            patterns: Vec::new(alloc),
            bounds,
        })
    }

    /// Collects from the formula with this number.
    pub fn collect(
        &mut self,
        words: &mut Vocabulary,
        node: u32,
        fuel: &mut Fuel,
    ) -> Result<(), Fault> {
        self.walk(words, node, DEEPEST, fuel)
    }

    fn walk(
        &mut self,
        words: &mut Vocabulary,
        node: u32,
        room: u32,
        fuel: &mut Fuel,
    ) -> Result<(), Fault> {
        let Some(room) = room.checked_sub(1) else {
            return Err(Fault::Overflow);
        };
        fuel.spend(8)?;
        let (body, value) = match words.tree.node(node)? {
            Node::And(span) | Node::Or(span) => {
                for i in 0..span.count {
                    let member = words.tree.member(span, i)?;
                    self.walk(words, member, room, fuel)?;
                }
                return Ok(());
            }
            Node::Read(function, arguments, rest) => (
                rest,
                self.application(words, function, arguments)?,
            ),
            Node::Forall(body) | Node::Exists(body) => (body, None),
            atom => return self.atom(words, atom),
        };
        self.inner.push(value)?;
        self.walk(words, body, room, fuel)?;
        let _value = self.inner.pop();
        Ok(())
    }

    fn atom(&mut self, words: &mut Vocabulary, atom: Node) -> Result<(), Fault> {
        match atom {
            Node::Predicate(p, arguments) | Node::NotPredicate(p, arguments) => self.predicate(
                words, p, arguments,
            ),
            Node::Equation(t) | Node::Inequality(t) => self.bound(words, t, false),
            Node::Disequation(t) => self.bound(words, t, true),
            _ => Ok(()),
        }
    }

    /// The pattern of an application, whose value has the number that is returned; None where it says nothing of the names.
    fn application(
        &mut self,
        words: &mut Vocabulary,
        function: u32,
        arguments: List,
    ) -> Result<Option<u32>, Fault> {
        let mut columns = self.columns(words, arguments)?;
        let value = if self.next < MOST_NAMES {
            Some(self.next)
        } else {
            None
        };
        columns.push(match value {
            Some(name) => Some(Shape::of_name(self.alloc, name)?),
            None => None,
        })?;
        self.add(Symbol::Function(function), columns, value)
    }

    fn predicate(
        &mut self,
        words: &mut Vocabulary,
        predicate: u32,
        arguments: List,
    ) -> Result<(), Fault> {
        let columns = self.columns(words, arguments)?;
        let _none = self.add(Symbol::Predicate(predicate), columns, None)?;
        Ok(())
    }

    /// Takes a pattern in which some name stands, beside its value.
    fn add(
        &mut self,
        symbol: Symbol,
        columns: Vec<Option<Shape>>,
        value: Option<u32>,
    ) -> Result<Option<u32>, Fault> {
        let pattern = Pattern { symbol, columns };
        let all = names_of(&pattern);
        let used = match value {
            Some(name) => all.without(Names::none().with(name)),
            None => all,
        };
        if used.is_empty() {
            return Ok(None);
        }
        if value.is_some() {
            self.next = self.next.saturating_add(1);
        }
        let covers = used.both(Names::below(self.names));
        self.patterns.push(Found {
            pattern,
            covers,
            value,
        })?;
        Ok(value)
    }

    fn columns(
        &mut self,
        words: &mut Vocabulary,
        arguments: List,
    ) -> Result<Vec<Option<Shape>>, Fault> {
        let count = words.terms.list(arguments)?.len();
        let mut columns = Vec::with_capacity(self.alloc, count.saturating_add(1))?;
        for i in 0..count {
            let t = at(words.terms.list(arguments)?, i)?;
            columns.push(self.shape(words, t)?)?;
        }
        Ok(columns)
    }

    /// A term as a column of a pattern, None where it speaks of names that are no values.
    fn shape(&mut self, words: &mut Vocabulary, t: Term) -> Result<Option<Shape>, Fault> {
        let mut multiples = Vec::new(self.alloc);
        let mut around: Vec<Monomial> = Vec::new(self.alloc);
        for m in words.terms.pairs(t.linear)? {
            if m.name < self.outer {
                around.push(*m)?;
                continue;
            }
            let Some(name) = self.pattern_name(m.name) else {
                return Ok(None);
            };
            multiples.push(Multiple {
                name,
                factor: m.factor,
            })?;
        }
        let linear = words.terms.linear(around.as_slice())?;
        let constant = t.constant;
        let rest = words.terms.put_in(Term { linear, constant }, self.list)?;
        Ok(Some(Shape { rest, multiples }))
    }

    /// The number as a name of patterns of a name of the formula.
    fn pattern_name(&self, name: u32) -> Option<u32> {
        let behind = name.checked_sub(self.outer)?;
        if behind < self.names {
            return Some(behind);
        }
        let inside = behind.checked_sub(self.names)?;
        match self.inner.get(inside as usize) {
            Some(value) => *value,
            None => None,
        }
    }

    /// Where a comparison has one quantified name alone, with the factor 1 or -1: the term at which it is 0, and those beside
    /// it for a disequation.
    fn bound(&mut self, words: &mut Vocabulary, t: Term, beside: bool) -> Result<(), Fault> {
        let Some(m) = self.single_name(&words.terms, t)? else {
            return Ok(());
        };
        let linear = words.terms.without(t.linear, m.name)?;
        let constant = t.constant;
        let Ok(s) = words.terms.put_in(Term { linear, constant }, self.list) else {
            return Ok(());
        };
        let at_zero = if m.factor == 1 {
            words.terms.minus(s)?
        } else {
            s
        };
        let name = m.name.checked_sub(self.outer).ok_or(Fault::Broken)?;
        let known = near_mut(&mut self.bounds, name as usize)?;
        push_new(known, at_zero)?;
        if beside {
            push_new(known, Terms::plus(at_zero, 1)?)?;
            push_new(known, Terms::plus(at_zero, -1)?)?;
        }
        Ok(())
    }

    /// The only name of a term that is not one of the outer names, if it is quantified and has the factor 1 or -1.
    fn single_name(&self, terms: &Terms, t: Term) -> Result<Option<Monomial>, Fault> {
        let mut single: Option<Monomial> = None;
        for m in terms.pairs(t.linear)? {
            if m.name < self.outer {
                continue;
            }
            if single.is_some() || m.factor != 1 && m.factor != -1 {
                return Ok(None);
            }
            single = Some(*m);
        }
        let Some(m) = single else {
            return Ok(None);
        };
        let is_quantified = m
            .name
            .checked_sub(self.outer)
            .is_some_and(|x| x < self.names);
        Ok(if is_quantified { Some(m) } else { None })
    }
}

fn push_new(terms: &mut Vec<Term>, t: Term) -> Result<(), Fault> {
    if !terms.contains(&t) {
        terms.push(t)?;
    }
    Ok(())
}
