// Model checking of an assumption: with tables and defaults for functions and predicates its body is a pure formula, and
// elimination says whether some values make it true (Ge and de Moura 2009).

use crate::closures::Closure;
use cdcl_forms::Vocabulary;
use cdcl_fuel::{Fault, Fuel, at, near, sub};
use cdcl_matching::{Items, Join, Matches, Plan, Step, Symbol, Trigger};
use cdcl_models::{Decider, Evaluator, Model, Outside, Purifier, Solution};
use std::alloc::Global;

/// What making a formula pure may cost, and how many steps its decision has.
#[derive(Clone, Copy)]
struct Cost {
    room: u64,
    steps: u64,
}

/// For all values of the names, and for a single point.
const WHOLE: Cost = Cost {
    room: 200_000,
    steps: 50_000,
};

const POINT: Cost = Cost {
    room: 40_000,
    steps: 5_000,
};

/// How many rows of values are looked at, at which the guards of a formula are rows.
const MOST_GUARDED: usize = 20_000;

/// Whether an assumption holds in a model.
#[derive(Drop)]
pub enum Verdict {
    Holds,
    /// It does not at these values of its names.
    Fails(Vec<i128>),
    /// The check was cut.
    Unsure,
}

/// Checks one assumption.
#[derive(Drop)]
pub(crate) struct Check<'a> {
    pub(crate) alloc: Global,
    pub(crate) words: &'a Vocabulary,
    pub(crate) items: &'a Items,
    pub(crate) model: &'a Model,
    pub(crate) closure: &'a Closure,
    /// The values of the names around.
    pub(crate) around: Vec<i128>,
}

impl<'a> Check<'a> {
    /// The verdict, with the plan of the formula's guard if it has one.
    pub(crate) fn verdict<D: Decider>(
        &self,
        plan: Option<&Plan>,
        decider: &mut D,
        fuel: &mut Fuel,
    ) -> Result<Verdict, Fault> {
        fuel.spend(50)?;
        if let Some(verdict) = self.guarded(plan, decider, fuel)? {
            return Ok(verdict);
        }
        if self.closure.names == 1 {
            let points = self.points(fuel)?;
            if let Some(x) = self.failing_point(points.as_slice(), decider, fuel)? {
                let mut values = Vec::new(self.alloc);
                values.push(x)?;
                return Ok(Verdict::Fails(values));
            }
            if !points.is_empty() {
                let known = Vec::from_slice(self.alloc, points.as_slice())?;
                let outside = Outside {
                    name: 0,
                    values: points,
                };
                let verdict = self.solved(Some(outside), decider, fuel)?;
                if is_settled(&verdict, known.as_slice()) {
                    return Ok(verdict);
                }
            }
        }
        self.solved(None, decider, fuel)
    }

    /// The verdict by the rows of the guard alone; None where that says nothing.
    fn guarded<D: Decider>(
        &self,
        plan: Option<&Plan>,
        decider: &mut D,
        fuel: &mut Fuel,
    ) -> Result<Option<Verdict>, Fault> {
        let (Some(trigger), Some(plan)) = (&self.closure.guard, plan) else {
            return Ok(None);
        };
        if !is_false_elsewhere(self.model, trigger) {
            return Ok(None);
        }
        let mut matches = Matches::new(self.alloc, self.closure.names, MOST_GUARDED);
        let mut share = fuel.share((fuel.left() / 16).max(20_000));
        let outcome = Join::new(self.alloc, trigger, 0, plan, self.items, u32::MAX)?.run(
            &mut matches,
            &mut share,
        );
        fuel.give_back(share);
        match outcome {
            Ok(()) => {}
            Err(Fault::Steps) => return Ok(None),
            Err(fault) => return Err(fault),
        }
        if matches.is_full() {
            return Ok(None);
        }
        self.at_matches(&matches, decider, fuel)
    }

    /// The verdict, where the body is true at no other values than those of the matches.
    fn at_matches<D: Decider>(
        &self,
        matches: &Matches,
        decider: &mut D,
        fuel: &mut Fuel,
    ) -> Result<Option<Verdict>, Fault> {
        let mut evaluator = Evaluator::new(self.alloc, true);
        for i in 0..matches.len() {
            let values = matches.values(i)?;
            let truth = evaluator.truth(
                self.words,
                self.model,
                self.closure.body,
                self.around.as_slice(),
                values,
                fuel,
            )?;
            let fails = match truth {
                Some(truth) => truth,
                None => match self.verdict_at(values, decider, fuel)? {
                    Verdict::Holds => false,
                    Verdict::Fails(_) => true,
                    Verdict::Unsure => return Ok(None),
                },
            };
            if fails {
                let values = Vec::from_slice(self.alloc, values)?;
                return Ok(Some(Verdict::Fails(values)));
            }
        }
        Ok(Some(Verdict::Holds))
    }

    /// The verdict by elimination, where the name is outside of some values.
    fn solved<D: Decider>(
        &self,
        outside: Option<Outside>,
        decider: &mut D,
        fuel: &mut Fuel,
    ) -> Result<Verdict, Fault> {
        let names = self.closure.names;
        let mut purifier = Purifier::new(self.alloc, self.around.as_slice(), names, outside)?;
        self.solution(&mut purifier, names, WHOLE, decider, fuel)
    }

    fn solution<D: Decider>(
        &self,
        purifier: &mut Purifier,
        names: u32,
        cost: Cost,
        decider: &mut D,
        fuel: &mut Fuel,
    ) -> Result<Verdict, Fault> {
        let mut share = fuel.share(cost.room);
        let made = purifier.purify(self.words, self.model, self.closure.body, &mut share);
        fuel.give_back(share);
        let formula = match made {
            Ok(formula) => formula,
            Err(Fault::Steps) => return Ok(Verdict::Unsure),
            Err(Fault::Overflow) => return Ok(Verdict::Unsure),
            Err(fault) => return Err(fault),
        };
        Ok(match decider.solve(&formula, names, cost.steps, fuel)? {
            Solution::None => Verdict::Holds,
            Solution::Values(values) => Verdict::Fails(values),
            Solution::Cut => Verdict::Unsure,
        })
    }

    /// The first of the points at which the body is true.
    fn failing_point<D: Decider>(
        &self,
        points: &[i128],
        decider: &mut D,
        fuel: &mut Fuel,
    ) -> Result<Option<i128>, Fault> {
        let mut evaluator = Evaluator::new(self.alloc, true);
        for x in points {
            let truth = evaluator.truth(
                self.words,
                self.model,
                self.closure.body,
                self.around.as_slice(),
                &[*x],
                fuel,
            )?;
            let fails = match truth {
                Some(truth) => truth,
                None => matches!(self.verdict_at(&[*x], decider, fuel)?, Verdict::Fails(_)),
            };
            if fails {
                return Ok(Some(*x));
            }
        }
        Ok(None)
    }

    /// The verdict by elimination at values of all names.
    fn verdict_at<D: Decider>(
        &self,
        point: &[i128],
        decider: &mut D,
        fuel: &mut Fuel,
    ) -> Result<Verdict, Fault> {
        let mut values = Vec::from_slice(self.alloc, self.around.as_slice())?;
        values.extend_from_slice(point)?;
        let mut purifier = Purifier::new(self.alloc, values.as_slice(), 0, None)?;
        self.solution(&mut purifier, 0, POINT, decider, fuel)
    }

    /// The values of the only name at which an argument is one of a table.
    fn points(&self, fuel: &mut Fuel) -> Result<Vec<i128>, Fault> {
        let mut points = Vec::new(self.alloc);
        for trigger in self.closure.triggers.triggers.iter() {
            self.points_of(trigger, &mut points, fuel)?;
        }
        points.as_mut_slice().sort_unstable();
        points.dedup();
        Ok(points)
    }

    fn points_of(
        &self,
        trigger: &Trigger,
        points: &mut Vec<i128>,
        fuel: &mut Fuel,
    ) -> Result<(), Fault> {
        for step in trigger.steps.iter() {
            let Step::Match(pattern) = step else {
                continue;
            };
            let Some(table) = self.items.table(pattern.symbol) else {
                continue;
            };
            for i in 0..pattern.columns.len() {
                let Some(shape) = near(&pattern.columns, i)? else {
                    continue;
                };
                let [m] = shape.multiples.as_slice() else {
                    continue;
                };
                if m.name != 0 {
                    continue;
                }
                let rest = self
                    .words
                    .terms
                    .value(shape.rest, self.model.constants.as_slice())?;
                for k in 0..table.len() {
                    fuel.spend(2)?;
                    let x = at(table.row(cdcl_fuel::small(k)?)?, i)?;
                    let Ok(difference) = sub(x, rest) else {
                        continue;
                    };
                    if difference.checked_rem(m.factor) == Some(0) {
                        points.push(difference.checked_div(m.factor).ok_or(Fault::Overflow)?)?;
                    }
                }
            }
        }
        Ok(())
    }
}

/// Whether the predicates of a guard are false but at the rows of their tables.
fn is_false_elsewhere(model: &Model, guard: &Trigger) -> bool {
    guard.steps.iter().all(|step| match step {
        Step::Match(pattern) => match pattern.symbol {
            Symbol::Predicate(p) => match model.predicates.get(p as usize) {
                Some(table) => !table.default,
                None => true,
            },
            Symbol::Function(_) => false,
        },
        Step::Choose(_, _) => false,
    })
}

/// Whether the verdict for values outside of the known ones, at which the body is not true, is one for all.
fn is_settled(verdict: &Verdict, known: &[i128]) -> bool {
    match verdict {
        Verdict::Holds => true,
        Verdict::Fails(values) => match values.first() {
            Some(x) => !known.contains(x),
            None => false,
        },
        Verdict::Unsure => false,
    }
}
