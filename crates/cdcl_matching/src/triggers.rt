// Which patterns are matched together so that each quantified name gets a term.

use crate::collecting::{Collector, Found};
use crate::pattern::{Names, Pattern, Step, Trigger, names_of};
use cdcl_forms::{Term, Terms};
use cdcl_fuel::{Fault, at, near};
use std::alloc::Global;

/// How many triggers of one pattern, and of several, a formula may have; and how many patterns one trigger.
const MOST_SINGLE: usize = 6;

const MOST_JOINED: usize = 3;

const MOST_PATTERNS: usize = 3;

/// The triggers of a formula: first those to be tried first, then those whose patterns have no name in common.
#[derive(Drop)]
pub struct Triggers {
    pub triggers: Vec<Trigger>,
    /// How many are to be tried first.
    pub first: usize,
}

impl Triggers {
    /// The triggers of what was collected for this many quantified names.
    pub fn new(alloc: Global, from: &Collector, names: u32) -> Result<Triggers, Fault> {
        let mut out = Triggers {
            triggers: Vec::new(alloc),
            first: 0,
        };
        let all = Names::below(names);
        out.single(alloc, from, all)?;
        if out.triggers.is_empty() {
            out.joined(alloc, from, all)?;
        }
        out.first = out.triggers.len();
        if out.triggers.is_empty() {
            out.several(alloc, from, all)?;
            out.first = out.triggers.len();
        } else if !out.triggers.iter().any(|t| t.steps.len() == 1) {
            out.several(alloc, from, all)?;
        }
        Ok(out)
    }

    /// Each pattern that has all names.
    fn single(&mut self, alloc: Global, from: &Collector, all: Names) -> Result<(), Fault> {
        for i in 0..from.patterns.len() {
            if near(&from.patterns, i)?.covers == all && self.triggers.len() < MOST_SINGLE {
                let mut chosen = Vec::new(alloc);
                chosen.push(i)?;
                self.add(alloc, from, chosen, all)?;
            }
        }
        Ok(())
    }

    /// Patterns with the applications whose values stand in them, which have all names together.
    fn joined(&mut self, alloc: Global, from: &Collector, all: Names) -> Result<(), Fault> {
        for i in 0..from.patterns.len() {
            let chosen = with_inner(alloc, from, i)?;
            if chosen.len() > 1
                && covered(from, chosen.as_slice())? == all
                && self.triggers.len() < MOST_JOINED
            {
                self.add(alloc, from, chosen, all)?;
            }
        }
        Ok(())
    }

    /// Patterns one after the other until they have all names, or as many as there are.
    fn several(&mut self, alloc: Global, from: &Collector, all: Names) -> Result<(), Fault> {
        let before = self.triggers.len();
        let count = from.patterns.len();
        for i in 0..count {
            let (chosen, covers) = gathered(alloc, from, i)?;
            let made = self.triggers.len().saturating_sub(before);
            if !covers.is_empty()
                && (made == 0 || chosen.len() <= MOST_PATTERNS && made < MOST_JOINED)
            {
                self.add(alloc, from, chosen, all)?;
            }
            if covers != all {
                break;
            }
        }
        Ok(())
    }

    /// Adds the trigger of the patterns with these numbers; names that stand in none of them get a bound.
    fn add(
        &mut self,
        alloc: Global,
        from: &Collector,
        chosen: Vec<usize>,
        all: Names,
    ) -> Result<(), Fault> {
        let values = values_of(from, chosen.as_slice())?;
        let ordered = in_order(alloc, from, chosen)?;
        let mut steps = Vec::new(alloc);
        for i in ordered.as_slice() {
            let pattern = near(&from.patterns, *i)?.pattern.copy(alloc)?;
            steps.push(Step::Match(without_other(pattern, values.and(all))))?;
        }
        let missing = all.without(covered(from, ordered.as_slice())?);
        for name in 0..from.bounds.len() {
            let name = cdcl_fuel::small(name)?;
            if missing.has(name) {
                steps.push(Step::Choose(
                    name,
                    choices(alloc, near(&from.bounds, name as usize)?)?,
                ))?;
            }
        }
        self.triggers.push(Trigger { steps })?;
        Ok(())
    }
}

/// The terms to try for a name: its bounds, or 0 where it has none.
fn choices(alloc: Global, bounds: &Vec<Term>) -> Result<Vec<Term>, Fault> {
    let mut terms = Vec::from_slice(alloc, bounds.as_slice())?;
    if terms.is_empty() {
        terms.push(Terms::number(0))?;
    }
    Ok(terms)
}

/// The pattern, with no column that has a name outside of these.
fn without_other(pattern: Pattern, known: Names) -> Pattern {
    let mut pattern = pattern;
    for column in pattern.columns.iter_mut() {
        let is_known = match column {
            Some(shape) => shape.multiples.iter().all(|m| known.has(m.name)),
            None => true,
        };
        if !is_known {
            *column = None;
        }
    }
    pattern
}

/// The values of the applications among these patterns.
fn values_of(from: &Collector, chosen: &[usize]) -> Result<Names, Fault> {
    let mut values = Names::none();
    for i in chosen {
        if let Some(name) = near(&from.patterns, *i)?.value {
            values = values.with(name);
        }
    }
    Ok(values)
}

/// The quantified names of these patterns.
fn covered(from: &Collector, chosen: &[usize]) -> Result<Names, Fault> {
    let mut covers = Names::none();
    for i in chosen {
        covers = covers.and(near(&from.patterns, *i)?.covers);
    }
    Ok(covers)
}

/// Pattern number i and, over and over, the applications whose values stand in those that are there.
fn with_inner(alloc: Global, from: &Collector, i: usize) -> Result<Vec<usize>, Fault> {
    let mut chosen = Vec::new(alloc);
    chosen.push(i)?;
    let mut wanted = needed(near(&from.patterns, i)?);
    for j in (0..from.patterns.len()).rev() {
        let found = near(&from.patterns, j)?;
        if j != i && found.value.is_some_and(|name| wanted.has(name)) {
            wanted = wanted.and(needed(found));
            chosen.push(j)?;
        }
    }
    Ok(chosen)
}

/// The names of a pattern beside its value.
fn needed(found: &Found) -> Names {
    let all = names_of(&found.pattern);
    match found.value {
        Some(name) => all.without(Names::none().with(name)),
        None => all,
    }
}

/// Pattern number i, and after it those that have a quantified name that none before has; and which names they have.
fn gathered(alloc: Global, from: &Collector, i: usize) -> Result<(Vec<usize>, Names), Fault> {
    let mut chosen = Vec::new(alloc);
    chosen.push(i)?;
    let mut covers = near(&from.patterns, i)?.covers;
    let count = from.patterns.len();
    for k in 1..count {
        let Some(j) = i.saturating_add(k).checked_rem(count) else {
            break;
        };
        let more = near(&from.patterns, j)?.covers;
        if !more.without(covers).is_empty() {
            covers = covers.and(more);
            chosen.push(j)?;
        }
    }
    Ok((chosen, covers))
}

/// The patterns in such an order that, where that is possible, each has a column whose names stand in earlier ones.
fn in_order(alloc: Global, from: &Collector, chosen: Vec<usize>) -> Result<Vec<usize>, Fault> {
    let mut left = chosen;
    let mut ordered: Vec<usize> = Vec::new(alloc);
    let mut known = Names::none();
    for _ in 0..left.len() {
        let mut next = 0;
        for k in (0..left.len()).rev() {
            if is_linked(from, at(&left, k)?, known)? {
                next = k;
            }
        }
        let i = at(&left, next)?;
        known = known.and(names_of(&near(&from.patterns, i)?.pattern));
        ordered.push(i)?;
        cdcl_fuel::drop_at(&mut left, next)?;
    }
    Ok(ordered)
}

/// Whether some column of the pattern has names, all of them known.
fn is_linked(from: &Collector, i: usize, known: Names) -> Result<bool, Fault> {
    let pattern = &near(&from.patterns, i)?.pattern;
    Ok(
        pattern.columns.iter().any(|column| match column {
            Some(shape) => !shape.multiples.is_empty()
                && shape.multiples.iter().all(|m| known.has(m.name)),
            None => false,
        }),
    )
}
