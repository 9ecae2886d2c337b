// Matching of a trigger in the present model: arguments are compared by their values, so that terms that are equal in the
// model match alike (de Moura and Bjorner, Efficient E-matching for SMT solvers, 2007, with values in the place of classes).

use crate::items::Items;
use crate::matches::Matches;
use crate::pattern::{
    MOST_NAMES, Multiple, Names, Pattern, Shape, Step, Symbol, Trigger, names_of,
};
use cdcl_forms::{Term, Vocabulary};
use cdcl_fuel::{Fault, Fuel, add, at, mac, mul, near, put, small};
use std::alloc::Global;

/// What the terms of a trigger are in the present model, and where its steps look items up.
#[derive(Drop)]
pub struct Plan {
    /// By step: the values of the columns' terms without names, or of the terms to choose from.
    numbers: Vec<Vec<i128>>,
    /// By step: a column whose names have values before the step.
    lookups: Vec<Option<usize>>,
}

impl Plan {
    /// Makes ready for the matching of a trigger.
    pub fn new(
        alloc: Global,
        trigger: &Trigger,
        items: &mut Items,
        vocabulary: &Vocabulary,
        values: &[i128],
        fuel: &mut Fuel,
    ) -> Result<Plan, Fault> {
        let mut plan = Plan {
            numbers: Vec::new(alloc),
            lookups: Vec::new(alloc),
        };
        let mut known = Names::none();
        for step in trigger.steps.iter() {
            let mut numbers = Vec::new(alloc);
            let mut lookup = None;
            match step {
                Step::Match(pattern) => {
                    rests(pattern, vocabulary, values, &mut numbers)?;
                    lookup = lookup_column(pattern, known)?;
                    if let Some(column) = lookup
                        && items.table(pattern.symbol).is_some_and(|t| !t.is_empty())
                    {
                        items.sort(pattern.symbol, column, fuel)?;
                    }
                    known = known.and(names_of(pattern));
                }
                Step::Choose(name, terms) => {
                    chosen_values(terms.as_slice(), vocabulary, values, &mut numbers)?;
                    known = known.with(*name);
                }
            }
            fuel.spend((numbers.len() as u64).saturating_add(2))?;
            plan.numbers.push(numbers)?;
            plan.lookups.push(lookup)?;
        }
        Ok(plan)
    }
}

fn rests(
    pattern: &Pattern,
    vocabulary: &Vocabulary,
    values: &[i128],
    numbers: &mut Vec<i128>,
) -> Result<(), Fault> {
    for column in pattern.columns.iter() {
        numbers.push(match column {
            Some(shape) => vocabulary.terms.value(shape.rest, values)?,
            None => 0,
        })?;
    }
    Ok(())
}

fn chosen_values(
    terms: &[Term],
    vocabulary: &Vocabulary,
    values: &[i128],
    numbers: &mut Vec<i128>,
) -> Result<(), Fault> {
    for t in terms {
        numbers.push(vocabulary.terms.value(*t, values)?)?;
    }
    Ok(())
}

/// The first column of which all names are known.
fn lookup_column(pattern: &Pattern, known: Names) -> Result<Option<usize>, Fault> {
    for i in 0..pattern.columns.len() {
        if let Some(shape) = near(&pattern.columns, i)?
            && shape.multiples.iter().all(|m| known.has(m.name))
        {
            return Ok(Some(i));
        }
    }
    Ok(None)
}

/// What a step tries, one after the other.
#[derive(Clone, Copy)]
enum Candidates<'a> {
    /// All items, or all choices.
    First(usize),
    Rows(&'a [(i128, u32)]),
}

impl<'a> Candidates<'a> {
    fn len(&self) -> usize {
        match self {
            Candidates::First(n) => *n,
            Candidates::Rows(rows) => rows.len(),
        }
    }

    fn get(&self, k: usize) -> Result<u32, Fault> {
        match self {
            Candidates::First(_) => small(k),
            Candidates::Rows(rows) => Ok(at(*rows, k)?.1),
        }
    }
}

/// How a column fits.
#[derive(Clone, Copy, PartialEq, Eq)]
enum Fit {
    No,
    Yes,
    /// Two or more of its names have no value yet.
    Open,
}

/// The matching of one trigger, as far as it has come.
#[derive(Drop)]
pub struct Join<'a> {
    trigger: &'a Trigger,
    /// The trigger's number among those of its formula.
    number: u32,
    plan: &'a Plan,
    items: &'a Items,
    /// The greatest generation of items that are looked at.
    limit: u32,
    bound: Vec<Option<i128>>,
    trail: Vec<u32>,
    chosen: Vec<u32>,
}

impl<'a> Join<'a> {
    pub fn new(
        alloc: Global,
        trigger: &'a Trigger,
        number: u32,
        plan: &'a Plan,
        items: &'a Items,
        limit: u32,
    ) -> Result<Join<'a>, Fault> {
        Ok(Join {
            trigger,
            number,
            plan,
            items,
            limit,
            bound: vec![in alloc; None; MOST_NAMES as usize]?,
            trail: Vec::new(alloc),
            chosen: Vec::new(alloc),
        })
    }

    /// All matches, until the budget is used up or enough are found.
    pub fn run(&mut self, found: &mut Matches, fuel: &mut Fuel) -> Result<(), Fault> {
        let steps = small(self.trigger.steps.len())?;
        self.extend(0, steps, 0, found, fuel)
    }

    fn extend(
        &mut self,
        step: usize,
        left: u32,
        generation: u32,
        found: &mut Matches,
        fuel: &mut Fuel,
    ) -> Result<(), Fault> {
        let Some(below) = left.checked_sub(1) else {
            return found.take(
                self.number,
                generation,
                self.bound.as_slice(),
                self.chosen.as_slice(),
                fuel,
            );
        };
        let candidates = self.candidates(step)?;
        for k in 0..candidates.len() {
            if found.is_full() {
                break;
            }
            let item = candidates.get(k)?;
            let mark = self.trail.len();
            if let Some(newer) = self.attempt(step, item, fuel)? {
                self.chosen.push(item)?;
                self.extend(
                    step.saturating_add(1),
                    below,
                    generation.max(newer),
                    found,
                    fuel,
                )?;
                let _last = self.chosen.pop();
            }
            self.undo(mark)?;
        }
        Ok(())
    }

    /// What may be tried for a step.
    fn candidates(&self, step: usize) -> Result<Candidates<'a>, Fault> {
        let trigger: &'a Trigger = self.trigger;
        let items: &'a Items = self.items;
        let pattern = match near(&trigger.steps, step)? {
            Step::Choose(_, terms) => return Ok(Candidates::First(terms.len())),
            Step::Match(pattern) => pattern,
        };
        let Some(column) = at(&self.plan.lookups, step)? else {
            return Ok(Candidates::First(items.table(pattern.symbol).map_or(0, |t| t.len())));
        };
        if items.table(pattern.symbol).map_or(0, |t| t.len()) == 0 {
            return Ok(Candidates::First(0));
        }
        let mut sum = at(near(&self.plan.numbers, step)?, column)?;
        if let Some(shape) = near(&pattern.columns, column)? {
            for m in shape.multiples.iter() {
                let Some(x) = at(&self.bound, m.name as usize)? else {
                    return Err(Fault::Broken);
                };
                sum = mac(m.factor, x, 1, sum)?;
            }
        }
        Ok(Candidates::Rows(items.having(pattern.symbol, column, sum)?))
    }

    /// Tries an item or a choice: the generation where it fits.
    fn attempt(&mut self, step: usize, item: u32, fuel: &mut Fuel) -> Result<Option<u32>, Fault> {
        let trigger: &'a Trigger = self.trigger;
        match near(&trigger.steps, step)? {
            Step::Choose(name, _) => {
                fuel.spend(1)?;
                let x = at(near(&self.plan.numbers, step)?, item as usize)?;
                self.bind(*name, x)?;
                Ok(Some(0))
            }
            Step::Match(pattern) => {
                fuel.spend((pattern.columns.len() as u64).saturating_add(1))?;
                let Some(generation) = self.generation(pattern.symbol, item)? else {
                    return Ok(None);
                };
                Ok(if self.fits(step, pattern, item)? {
                    Some(generation)
                } else {
                    None
                })
            }
        }
    }

    /// The generation of an item, None where it is above the limit.
    fn generation(&self, symbol: Symbol, item: u32) -> Result<Option<u32>, Fault> {
        let Some(table) = self.items.table(symbol) else {
            return Err(Fault::Broken);
        };
        let generation = table.source(item)?.generation;
        Ok(if generation <= self.limit {
            Some(generation)
        } else {
            None
        })
    }

    fn bind(&mut self, name: u32, x: i128) -> Result<(), Fault> {
        put(&mut self.bound, name as usize, Some(x))?;
        self.trail.push(name)?;
        Ok(())
    }

    fn undo(&mut self, mark: usize) -> Result<(), Fault> {
        for _ in mark..self.trail.len() {
            if let Some(name) = self.trail.pop() {
                put(&mut self.bound, name as usize, None)?;
            }
        }
        Ok(())
    }

    /// Whether the item fits the pattern: its names get values then.
    fn fits(&mut self, step: usize, pattern: &Pattern, item: u32) -> Result<bool, Fault> {
        let items: &'a Items = self.items;
        let plan: &'a Plan = self.plan;
        let Some(table) = items.table(pattern.symbol) else {
            return Err(Fault::Broken);
        };
        let row = table.row(item)?;
        let rests = near(&plan.numbers, step)?;
        for _ in 0..pattern.columns.len().saturating_add(1) {
            let mut open = false;
            for i in 0..pattern.columns.len() {
                let Some(shape) = near(&pattern.columns, i)? else {
                    continue;
                };
                match self.fits_column(shape, at(rests, i)?, at(row, i)?)? {
                    Fit::No => return Ok(false),
                    Fit::Yes => {}
                    Fit::Open => open = true,
                }
            }
            if !open {
                return Ok(true);
            }
        }
        Ok(false)
    }

    /// Whether the column's term can have the value, by a value for its only open name.
    fn fits_column(&mut self, shape: &Shape, rest: i128, value: i128) -> Result<Fit, Fault> {
        let mut open: Option<Multiple> = None;
        let Ok(mut sum) = add(value, rest.checked_neg().ok_or(Fault::Overflow)?) else {
            return Ok(Fit::No);
        };
        for m in shape.multiples.iter() {
            match at(&self.bound, m.name as usize)? {
                Some(x) => {
                    let part = mul(m.factor, x)?;
                    sum = add(sum, part.checked_neg().ok_or(Fault::Overflow)?)?;
                }
                None if open.is_none() => open = Some(*m),
                None => return Ok(Fit::Open),
            }
        }
        let Some(m) = open else {
            return Ok(if sum == 0 { Fit::Yes } else { Fit::No });
        };
        if sum.checked_rem(m.factor) != Some(0) {
            return Ok(Fit::No);
        }
        let x = sum.checked_div(m.factor).ok_or(Fault::Overflow)?;
        self.bind(m.name, x)?;
        Ok(Fit::Yes)
    }
}
