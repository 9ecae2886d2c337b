// Patterns: what applications and predicates of a quantified formula look like, and how they are tried together.

use cdcl_forms::{Term, Terms};
use cdcl_fuel::Fault;
use std::alloc::Global;

/// A function or a predicate.
#[derive(Clone, Copy, Debug, PartialEq, Eq)]
pub enum Symbol {
    Function(u32),
    Predicate(u32),
}

/// A name of a pattern with its coefficient. The quantified names come first, then those of applications inside.
#[derive(Clone, Copy, Debug, PartialEq, Eq)]
pub struct Multiple {
    pub name: u32,
    pub factor: i128,
}

/// A term of a pattern: one without names of it, and multiples of these.
#[derive(Drop)]
pub struct Shape {
    pub rest: Term,
    pub multiples: Vec<Multiple>,
}

/// The arguments of a symbol, and after them the value of a function. None stands for any term.
#[derive(Drop)]
pub struct Pattern {
    pub symbol: Symbol,
    pub columns: Vec<Option<Shape>>,
}

/// How some names get their terms.
#[derive(Drop)]
pub enum Step {
    /// By matching one item of a symbol.
    Match(Pattern),
    /// One of these terms for the name.
    Choose(u32, Vec<Term>),
}

/// Steps that give a term to each quantified name.
#[derive(Drop)]
pub struct Trigger {
    pub steps: Vec<Step>,
}

impl Shape {
    /// A term that is a name of the pattern alone.
    pub fn of_name(alloc: Global, name: u32) -> Result<Shape, Fault> {
        let mut multiples = Vec::new(alloc);
        multiples.push(Multiple { name, factor: 1 })?;
        Ok(Shape {
            rest: Terms::number(0),
            multiples,
        })
    }

    pub fn copy(&self, alloc: Global) -> Result<Shape, Fault> {
        Ok(Shape {
            rest: self.rest,
            multiples: Vec::from_slice(alloc, self.multiples.as_slice())?,
        })
    }
}

impl Pattern {
    pub fn copy(&self, alloc: Global) -> Result<Pattern, Fault> {
        let mut columns = Vec::with_capacity(alloc, self.columns.len())?;
        for column in self.columns.iter() {
            columns.push(match column {
                Some(shape) => Some(shape.copy(alloc)?),
                None => None,
            })?;
        }
        Ok(Pattern {
            symbol: self.symbol,
            columns,
        })
    }
}

/// A set of names: bit number x stands for the name x.
#[derive(Clone, Copy, Debug, PartialEq, Eq)]
pub struct Names(pub u64);

/// How many names a set can speak of.
pub const MOST_NAMES: u32 = 60;

impl Names {
    pub fn none() -> Names {
        Names(0)
    }

    /// The names below n.
    pub fn below(n: u32) -> Names {
        let bit = 1u64.wrapping_shl(n.min(MOST_NAMES));
        Names(bit.wrapping_sub(1))
    }

    pub fn with(self, name: u32) -> Names {
        if name < MOST_NAMES {
            Names(self.0 | 1u64.wrapping_shl(name))
        } else {
            self
        }
    }

    pub fn and(self, other: Names) -> Names {
        Names(self.0 | other.0)
    }

    pub fn without(self, other: Names) -> Names {
        Names(self.0 & !other.0)
    }

    /// The names of both sets.
    pub fn both(self, other: Names) -> Names {
        Names(self.0 & other.0)
    }

    pub fn is_empty(self) -> bool {
        self.0 == 0
    }

    pub fn has(self, name: u32) -> bool {
        name < MOST_NAMES && self.0 & 1u64.wrapping_shl(name) != 0
    }
}

/// The names of a pattern.
pub fn names_of(pattern: &Pattern) -> Names {
    let mut names = Names::none();
    for column in pattern.columns.iter() {
        if let Some(shape) = column {
            for m in shape.multiples.iter() {
                names = names.with(m.name);
            }
        }
    }
    names
}
