// Candidates for instances: the matches of the triggers, judged by the truth of the instance in the present model. What is true
// there already is no candidate; what the model denies comes first, then what it says nothing of, by generation.

use crate::closures::{Closure, from_place};
use cdcl_forms::Vocabulary;
use cdcl_fuel::{Fault, Fuel, near};
use cdcl_matching::{Items, Join, Match, Matches, Plan, RowSet, Trigger, terms_of};
use cdcl_models::{Evaluator, Model};
use std::alloc::Global;

/// How many candidates that the model denies are enough, and how many matches of one formula are looked at.
const ENOUGH: usize = 200;

const MOST_MATCHES: usize = 3000;

/// An instance that would be new.
#[derive(Clone, Copy)]
pub struct Candidate {
    pub variable: u32,
    pub terms: cdcl_forms::List,
    pub generation: u32,
}

/// What candidates are judged by.
#[derive(Clone, Copy)]
pub(crate) struct Seen<'a> {
    /// The values of the constants.
    pub(crate) values: &'a [i128],
    pub(crate) model: &'a Model,
    /// What was handed back before.
    pub(crate) done: &'a RowSet,
}

/// The candidates of a round.
#[derive(Drop)]
pub(crate) struct Gathering {
    pub(crate) alloc: Global,
    /// The greatest generation of items.
    pub(crate) limit: u32,
    /// Candidates that the model denies, and those of which it says nothing.
    pub(crate) denied: Vec<Candidate>,
    pub(crate) unknown: Vec<Candidate>,
}

/// Which triggers of a formula are matched.
#[derive(Clone, Copy, PartialEq, Eq)]
pub(crate) enum Stage {
    First,
    Later,
    Bounds,
}

/// The row that stands for an instance in the set of those that were made.
pub(crate) fn instance_row(variable: u32, terms: cdcl_forms::List) -> [i128; 2] {
    [i128::from(variable), i128::from(terms)]
}

impl Gathering {
    /// Gathers from the live closures, beginning at a place of their list.
    pub(crate) fn gather(
        &mut self,
        words: &mut Vocabulary,
        items: &mut Items,
        seen: Seen<'_>,
        closures: &Vec<Closure>,
        live: &[u32],
        place: usize,
        stage: Stage,
        fuel: &mut Fuel,
    ) -> Result<(), Fault> {
        for i in 0..live.len() {
            let closure = near(closures, from_place(live, place, i)? as usize)?;
            self.closure(words, items, seen, closure, stage, fuel)?;
            if self.denied.len() >= ENOUGH {
                break;
            }
        }
        Ok(())
    }

    fn closure(
        &mut self,
        words: &mut Vocabulary,
        items: &mut Items,
        seen: Seen<'_>,
        closure: &Closure,
        stage: Stage,
        fuel: &mut Fuel,
    ) -> Result<(), Fault> {
        let mut matches = Matches::new(self.alloc, closure.names, MOST_MATCHES);
        if stage == Stage::Bounds {
            if closure.used_bounds {
                return Ok(());
            }
            let trigger = closure.bounds_trigger(self.alloc)?;
            self.run(words, items, seen.values, &trigger, 0, &mut matches, fuel)?;
            return self.judge(words, items, seen, closure, Some(&trigger), &matches, fuel);
        }
        let all = &closure.triggers.triggers;
        for i in 0..all.len() {
            if (i < closure.triggers.first) == (stage == Stage::First) {
                self.run(
                    words,
                    items,
                    seen.values,
                    near(all, i)?,
                    cdcl_fuel::small(i)?,
                    &mut matches,
                    fuel,
                )?;
            }
        }
        self.judge(words, items, seen, closure, None, &matches, fuel)
    }

    /// Matches a trigger with a share of the budget.
    fn run(
        &self,
        words: &Vocabulary,
        items: &mut Items,
        values: &[i128],
        trigger: &Trigger,
        number: u32,
        matches: &mut Matches,
        fuel: &mut Fuel,
    ) -> Result<(), Fault> {
        let plan = Plan::new(self.alloc, trigger, items, words, values, fuel)?;
        let mut share = fuel.share((fuel.left() / 16).max(20_000));
        let outcome = matched(
            self.alloc, trigger, number, &plan, items, self.limit, matches, &mut share,
        );
        fuel.give_back(share);
        match outcome {
            Err(Fault::Steps) => Ok(()),
            other => other,
        }
    }

    /// Takes the matches at which the body is not false in the model, and that were not handed back before.
    fn judge(
        &mut self,
        words: &mut Vocabulary,
        items: &Items,
        seen: Seen<'_>,
        closure: &Closure,
        only: Option<&Trigger>,
        matches: &Matches,
        fuel: &mut Fuel,
    ) -> Result<(), Fault> {
        let around = closure.around(self.alloc, &words.terms, seen.values)?;
        let mut evaluator = Evaluator::new(self.alloc, false);
        for i in 0..matches.len() {
            if self.denied.len() >= ENOUGH {
                break;
            }
            let truth = evaluator.truth(
                words,
                seen.model,
                closure.body,
                around.as_slice(),
                matches.values(i)?,
                fuel,
            )?;
            if truth == Some(false) {
                continue;
            }
            let found = matches.get(i)?;
            let trigger = trigger_of(closure, only, found.trigger)?;
            let chosen = matches.chosen(found)?;
            let Some(candidate) = self.candidate(
                words, items, seen.done, closure, trigger, found, chosen, fuel,
            )?
            else {
                continue;
            };
            if truth.is_some() {
                self.denied.push(candidate)?;
            } else {
                self.unknown.push(candidate)?;
            }
        }
        Ok(())
    }

    /// The instance of a match, None where it was made before or has no terms.
    fn candidate(
        &self,
        words: &mut Vocabulary,
        items: &Items,
        done: &RowSet,
        closure: &Closure,
        trigger: &Trigger,
        found: Match,
        chosen: &[u32],
        fuel: &mut Fuel,
    ) -> Result<Option<Candidate>, Fault> {
        fuel.spend(20)?;
        let terms = terms_of(
            self.alloc,
            &mut words.terms,
            items,
            trigger,
            chosen,
            closure.names,
        )?;
        let Some(terms) = terms else {
            return Ok(None);
        };
        let terms = words.terms.list_of(terms.as_slice())?;
        let row = instance_row(closure.variable, terms);
        if done.find(&row, fuel)?.is_some() {
            return Ok(None);
        }
        Ok(Some(Candidate {
            variable: closure.variable,
            terms,
            generation: found.generation.max(closure.generation).saturating_add(1),
        }))
    }
}

/// The trigger of a match: the only one, or one of the closure.
fn trigger_of<'b>(
    closure: &'b Closure,
    only: Option<&'b Trigger>,
    number: u32,
) -> Result<&'b Trigger, Fault> {
    match only {
        Some(trigger) => Ok(trigger),
        None => near(&closure.triggers.triggers, number as usize),
    }
}

fn matched(
    alloc: Global,
    trigger: &Trigger,
    number: u32,
    plan: &Plan,
    items: &Items,
    limit: u32,
    matches: &mut Matches,
    fuel: &mut Fuel,
) -> Result<(), Fault> {
    Join::new(alloc, trigger, number, plan, items, limit)?.run(matches, fuel)
}
