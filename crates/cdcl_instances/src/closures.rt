// The for-some formulas that are false somewhere in a search: each is an assumption that holds for all integers.

use crate::guards::guard;
use cdcl_forms::{Definition, List, Node, Present, Term, Terms, Vocabulary, literal};
use cdcl_fuel::{Fault, Fuel, at, near};
use cdcl_matching::{Collector, Items, Plan, Step, Trigger, Triggers};
use std::alloc::Global;

/// How many names a formula binds at once at most.
const MOST_BOUND: u32 = 40;

/// A for-some formula of the root with terms for its names: its body has no values of the bound names.
#[derive(Drop)]
pub struct Closure {
    pub variable: u32,
    /// The terms of the names around.
    pub list: List,
    pub body: u32,
    /// How many names it binds.
    pub names: u32,
    pub generation: u32,
    pub triggers: Triggers,
    /// Predicates that have to be true where the body is, which have all names together.
    pub guard: Option<Trigger>,
    /// By bound name: terms at which a comparison changes its truth.
    pub bounds: Vec<Vec<Term>>,
    /// Whether instances at the bounds were made.
    pub used_bounds: bool,
}

impl Closure {
    /// What a variable stands for, with its triggers; None where that is no for-some formula.
    pub fn new(
        alloc: Global,
        words: &mut Vocabulary,
        variable: u32,
        fuel: &mut Fuel,
    ) -> Result<Option<Closure>, Fault> {
        let Definition::Closure(node, list) = words.definition(variable as usize)? else {
            return Ok(None);
        };
        let (body, names) = body_of(words, node)?;
        if names == 0 {
            return Ok(None);
        }
        let mut collector = Collector::new(alloc, &words.terms, list, names)?;
        collector.collect(words, body, fuel)?;
        let triggers = Triggers::new(alloc, &collector, names)?;
        let guard = guard(alloc, words, list, body, names, fuel)?;
        Ok(Some(Closure {
            variable,
            list,
            body,
            names,
            generation: words.generation_of(variable as usize)?,
            triggers,
            guard,
            bounds: std::mem::replace(&mut collector.bounds, Vec::new(alloc)),
            used_bounds: false,
        }))
    }

    /// Whether the formula is false now.
    pub fn is_live(&self, present: &Present<'_>) -> Result<bool, Fault> {
        present.is_true(literal(self.variable, false)?)
    }

    /// The values of the names around.
    pub fn around(
        &self,
        alloc: Global,
        terms: &Terms,
        values: &[i128],
    ) -> Result<Vec<i128>, Fault> {
        let mut out = Vec::new(alloc);
        for t in terms.list(self.list)? {
            out.push(terms.value(*t, values)?)?;
        }
        Ok(out)
    }

    /// Makes ready for the matching of the guard, if there is one.
    pub(crate) fn guard_plan(
        &self,
        alloc: Global,
        words: &Vocabulary,
        items: &mut Items,
        values: &[i128],
        fuel: &mut Fuel,
    ) -> Result<Option<Plan>, Fault> {
        match &self.guard {
            Some(trigger) => Ok(Some(Plan::new(alloc, trigger, items, words, values, fuel)?)),
            None => Ok(None),
        }
    }

    /// The trigger of the bounds alone, and 0 for each name.
    pub fn bounds_trigger(&self, alloc: Global) -> Result<Trigger, Fault> {
        let mut steps = Vec::new(alloc);
        for name in 0..self.names {
            let mut terms = Vec::from_slice(alloc, near(&self.bounds, name as usize)?.as_slice())?;
            terms.push(Terms::number(0))?;
            steps.push(Step::Choose(name, terms))?;
        }
        Ok(Trigger { steps })
    }
}

/// The body after the for-somes of a node, and how many these are.
fn body_of(words: &Vocabulary, node: u32) -> Result<(u32, u32), Fault> {
    let mut body = node;
    let mut names: u32 = 0;
    for _ in 0..MOST_BOUND {
        let Node::Exists(inner) = words.tree.node(body)? else {
            break;
        };
        body = inner;
        names = names.saturating_add(1);
    }
    Ok((body, names))
}

/// The numbers of the closures that are false now.
pub(crate) fn live(
    alloc: Global,
    closures: &Vec<Closure>,
    present: &Present<'_>,
) -> Result<Vec<u32>, Fault> {
    let mut out = Vec::new(alloc);
    for i in 0..closures.len() {
        if near(closures, i)?.is_live(present)? {
            out.push(cdcl_fuel::small(i)?)?;
        }
    }
    Ok(out)
}

/// Element number i of a list, beginning at a place and going round.
pub(crate) fn from_place(list: &[u32], place: usize, i: usize) -> Result<u32, Fault> {
    match place.saturating_add(i).checked_rem(list.len()) {
        Some(k) => at(list, k),
        None => Err(Fault::Broken),
    }
}
