// How often each quantifier was instantiated, and which symbols occur in it.

use base_watch::{Event, Instances, Watch};
use cdcl_forms::{Node, Tree};
use cdcl_fuel::{Fault, near_mut};
use std::alloc::Global;

/// The last bit of a set of symbols, which stands for all further ones.
const LAST: u32 = 63;

/// The instances of each quantified formula, by its number.
#[derive(Drop)]
pub(crate) struct Tally {
    alloc: Global,
    counts: Vec<u64>,
}

impl Tally {
    /// No instance.
    pub(crate) fn new(alloc: Global) -> Tally {
        Tally {
            alloc,
            counts: Vec::new(alloc),
        }
    }

    /// Counts an instance of this formula.
    pub(crate) fn add(&mut self, formula: u32) -> Result<(), Fault> {
        let place = formula as usize;
        for _ in self.counts.len()..place.saturating_add(1) {
            self.counts.push(0)?;
        }
        let count = near_mut(&mut self.counts, place)?;
        *count = count.saturating_add(1);
        Ok(())
    }

    /// Tells of each formula that has an instance. One of which the symbols cannot be listed is left out.
    pub(crate) fn tell<X: Watch>(&self, tree: &Tree, watch: &mut X) {
        for (place, count) in self.counts.iter().enumerate() {
            let Ok(quantifier) = u32::try_from(place) else {
                return;
            };
            if *count == 0 {
                continue;
            }
            if let Ok(symbols) = occurring(self.alloc, tree, quantifier) {
                watch.tell(Event::Instantiated(Instances {
                    quantifier,
                    count: *count,
                    predicates: symbols.predicates,
                    functions: symbols.functions,
                }));
            }
        }
    }
}

/// The predicates and the functions of a formula, by their bits.
#[derive(Clone, Copy)]
struct Symbols {
    predicates: u64,
    functions: u64,
}

impl Symbols {
    fn add_predicate(&mut self, number: u32) {
        self.predicates |= bit(number);
    }

    fn add_function(&mut self, number: u32) {
        self.functions |= bit(number);
    }
}

/// The bit of a symbol.
fn bit(number: u32) -> u64 {
    1u64 << number.min(LAST)
}

/// Which symbols occur in a formula.
fn occurring(alloc: Global, tree: &Tree, formula: u32) -> Result<Symbols, Fault> {
    let mut found = Symbols {
        predicates: 0,
        functions: 0,
    };
    let mut todo = Vec::new(alloc);
    todo.push(formula)?;
    for _ in 0..u32::MAX {
        let Some(n) = todo.pop() else {
            return Ok(found);
        };
        add(tree, n, &mut found, &mut todo)?;
    }
    Err(Fault::Steps)
}

/// Adds the symbols of a formula that stand in no smaller one, and puts the smaller ones to those that are to be looked at.
fn add(tree: &Tree, n: u32, found: &mut Symbols, todo: &mut Vec<u32>) -> Result<(), Fault> {
    match tree.node(n)? {
        Node::And(span) | Node::Or(span) => {
            for i in 0..span.count {
                todo.push(tree.member(span, i)?)?;
            }
        }
        Node::Forall(body) | Node::Exists(body) => todo.push(body)?,
        Node::Read(f, _, rest) => {
            found.add_function(f);
            todo.push(rest)?;
        }
        Node::OtherValue(f, _, _) => found.add_function(f),
        Node::Predicate(p, _) | Node::NotPredicate(p, _) => found.add_predicate(p),
        Node::Equation(_) | Node::Disequation(_) | Node::Inequality(_) => {}
    }
    Ok(())
}
