// The terms of a match: what each quantified name has to be so that the patterns become the terms that were found.

use crate::items::Items;
use crate::pattern::{MOST_NAMES, Multiple, Pattern, Shape, Step, Trigger};
use cdcl_forms::{Term, Terms};
use cdcl_fuel::{Fault, at, near, put};
use std::alloc::Global;

/// Terms for the names of a trigger.
#[derive(Drop)]
struct Binding {
    bound: Vec<Option<Term>>,
}

/// The terms of this many quantified names by the items that were chosen for the steps of a trigger. None where one of them would
/// be a fraction.
pub fn terms_of(
    alloc: Global,
    terms: &mut Terms,
    items: &Items,
    trigger: &Trigger,
    chosen: &[u32],
    names: u32,
) -> Result<Option<Vec<Term>>, Fault> {
    let mut binding = Binding {
        bound: vec![in alloc; None; MOST_NAMES as usize]?,
    };
    for i in 0..trigger.steps.len() {
        let item = at(chosen, i)?;
        match near(&trigger.steps, i)? {
            Step::Choose(name, choices) => put(
                &mut binding.bound,
                *name as usize,
                Some(at(choices, item as usize)?),
            )?,
            Step::Match(pattern) => {
                if !binding.take(terms, items, pattern, item)? {
                    return Ok(None);
                }
            }
        }
    }
    let mut out = Vec::with_capacity(alloc, names as usize)?;
    for x in 0..names {
        match at(&binding.bound, x as usize)? {
            Some(t) => out.push(t)?,
            None => return Ok(None),
        }
    }
    Ok(Some(out))
}

impl Binding {
    /// Gives terms to the names of a pattern; false where one would be a fraction.
    fn take(
        &mut self,
        terms: &mut Terms,
        items: &Items,
        pattern: &Pattern,
        item: u32,
    ) -> Result<bool, Fault> {
        for _ in 0..pattern.columns.len() {
            for i in 0..pattern.columns.len() {
                let Some(shape) = near(&pattern.columns, i)? else {
                    continue;
                };
                let Some(open) = self.only_open(shape)? else {
                    continue;
                };
                let t = items.term(terms, pattern.symbol, item, i)?;
                if !self.solve(terms, shape, open, t)? {
                    return Ok(false);
                }
            }
        }
        Ok(true)
    }

    /// The only name of the column without a term.
    fn only_open(&self, shape: &Shape) -> Result<Option<Multiple>, Fault> {
        let mut open = None;
        for m in shape.multiples.iter() {
            if at(&self.bound, m.name as usize)?.is_some() {
                continue;
            }
            if open.is_some() {
                return Ok(None);
            }
            open = Some(*m);
        }
        Ok(open)
    }

    /// Gives the open name the term with which the column is t; false where that would be a fraction.
    fn solve(
        &mut self,
        terms: &mut Terms,
        shape: &Shape,
        open: Multiple,
        t: Term,
    ) -> Result<bool, Fault> {
        let mut sum = terms.combine(1, t, -1, shape.rest)?;
        for m in shape.multiples.iter() {
            if let Some(s) = at(&self.bound, m.name as usize)? {
                let factor = m.factor.checked_neg().ok_or(Fault::Overflow)?;
                sum = terms.combine(1, sum, factor, s)?;
            }
        }
        let Some(quotient) = divided(terms, sum, open.factor)? else {
            return Ok(false);
        };
        put(&mut self.bound, open.name as usize, Some(quotient))?;
        Ok(true)
    }
}

/// The term divided by a number, None where that leaves fractions.
fn divided(terms: &mut Terms, t: Term, by: i128) -> Result<Option<Term>, Fault> {
    if by == 1 {
        return Ok(Some(t));
    }
    let divisor = terms.divisor(t.linear)?;
    if divisor.checked_rem(by) != Some(0) || t.constant.checked_rem(by) != Some(0) {
        return Ok(None);
    }
    let linear = terms.divided(t.linear, by)?;
    let constant = t.constant.checked_div(by).ok_or(Fault::Overflow)?;
    Ok(Some(Term { linear, constant }))
}
