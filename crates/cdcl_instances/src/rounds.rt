// The rounds of instances: at each model of the clauses, what to do about the quantifiers.

use crate::checking::{Check, Verdict};
use crate::closures::{Closure, live};
use crate::gathering::{Candidate, Gathering, Seen, Stage, instance_row};
use crate::naming::term_with;
use cdcl_forms::{Instance, List, Present, Terms, Vocabulary};
use cdcl_fuel::{Fault, Fuel, near, near_mut};
use cdcl_matching::{Items, RowSet};
use cdcl_models::{Decider, Defaults, Model};
use std::alloc::Global;
use std::mem;

/// How many instances of a round there are at most: denied ones, and others.
const MOST_DENIED: usize = 15;

const MOST_UNKNOWN: usize = 30;
/// The greatest generation that is looked at, and how often a model is checked.
const LAST_GENERATION: u32 = 60;

const MOST_CHECKS: u32 = 300;

/// What a round says.
#[derive(Clone, Copy, Debug, PartialEq, Eq)]
pub enum Outcome {
    /// There are new instances.
    Again,
    /// The model is one of all assumptions that are live.
    Model,
    /// There is nothing more to do.
    Stuck,
}

/// All for-some formulas that were opened, and what was done about them.
#[derive(Drop)]
pub struct Quantifiers {
    alloc: Global,
    closures: Vec<Closure>,
    /// Instances that were handed back, by variable and list of terms.
    done: RowSet,
    /// The greatest generation of terms that are matched.
    limit: u32,
    checks: u32,
    turn: usize,
    model: Option<Model>,
}

/// What a round looks at: the present model with its live closures, items and tables.
#[derive(Drop)]
struct Scene<'a> {
    present: &'a Present<'a>,
    live: Vec<u32>,
    items: Items,
    model: Model,
}

/// The model, with an empty one in its place.
fn taken(alloc: Global, model: &mut Model) -> Model {
    let empty = Model {
        functions: Vec::new(alloc),
        predicates: Vec::new(alloc),
        constants: Vec::new(alloc),
    };
    mem::replace(model, empty)
}

impl Quantifiers {
    pub fn new(alloc: Global) -> Quantifiers {
        Quantifiers {
            alloc,
            closures: Vec::new(alloc),
            done: RowSet::new(alloc),
            limit: 0,
            checks: 0,
            turn: 0,
            model: None,
        }
    }

    /// A for-some formula was opened. Takes its patterns.
    pub fn register(
        &mut self,
        words: &mut Vocabulary,
        variable: u32,
        fuel: &mut Fuel,
    ) -> Result<(), Fault> {
        if let Some(closure) = Closure::new(self.alloc, words, variable, fuel)? {
            self.closures.push(closure)?;
        }
        Ok(())
    }

    /// Whether some formula is false now.
    pub fn has_live(&self, present: &Present<'_>) -> Result<bool, Fault> {
        Ok(!live(self.alloc, &self.closures, present)?.is_empty())
    }

    /// The model of the last round that said so.
    pub fn model(self) -> Option<Model> {
        self.model
    }

    /// What to do where all clauses hold in the present model, whose values are whole. Instances are put after `out`.
    pub fn round<D: Decider>(
        &mut self,
        words: &mut Vocabulary,
        present: Present<'_>,
        decider: &mut D,
        fuel: &mut Fuel,
        out: &mut Vec<Instance>,
    ) -> Result<Outcome, Fault> {
        let live = live(self.alloc, &self.closures, &present)?;
        let items = Items::new(self.alloc, words, present.values, fuel)?;
        let model = Model::new(self.alloc, &items, &present, fuel)?;
        let mut scene = Scene {
            present: &present,
            live,
            items,
            model,
        };
        self.turn = self.turn.wrapping_add(1);
        for _ in 0..LAST_GENERATION.saturating_add(2) {
            for stage in [Stage::First, Stage::Later] {
                if self.instances(words, &mut scene, stage, fuel, out)? {
                    return Ok(Outcome::Again);
                }
            }
            if let Some(outcome) = self.check(words, &mut scene, decider, fuel, out)? {
                return Ok(outcome);
            }
            if scene.items.newest <= self.limit || self.limit >= LAST_GENERATION {
                break;
            }
            self.limit = self.limit.saturating_add(1);
        }
        let at_bounds = self.instances(words, &mut scene, Stage::Bounds, fuel, out)?;
        Ok(if at_bounds {
            Outcome::Again
        } else {
            Outcome::Stuck
        })
    }

    /// Instances by matching: whether there are some.
    fn instances(
        &mut self,
        words: &mut Vocabulary,
        scene: &mut Scene<'_>,
        stage: Stage,
        fuel: &mut Fuel,
        out: &mut Vec<Instance>,
    ) -> Result<bool, Fault> {
        let (denied, unknown) = self.candidates(words, scene, stage, fuel)?;
        if stage == Stage::Bounds {
            for i in scene.live.as_slice() {
                near_mut(&mut self.closures, *i as usize)?.used_bounds = true;
            }
        }
        if denied.is_empty() {
            self.hand_back(unknown, MOST_UNKNOWN, fuel, out)
        } else {
            self.hand_back(denied, MOST_DENIED, fuel, out)
        }
    }

    /// The candidates that the model denies, and those of which it says nothing.
    fn candidates(
        &self,
        words: &mut Vocabulary,
        scene: &mut Scene<'_>,
        stage: Stage,
        fuel: &mut Fuel,
    ) -> Result<(Vec<Candidate>, Vec<Candidate>), Fault> {
        let mut gathering = Gathering {
            alloc: self.alloc,
            limit: self.limit,
            denied: Vec::new(self.alloc),
            unknown: Vec::new(self.alloc),
        };
        let seen = Seen {
            values: scene.present.values,
            model: &scene.model,
            done: &self.done,
        };
        let mut share = fuel.share((fuel.left() / 4).max(100_000));
        let live = scene.live.as_slice();
        let outcome = gathering.gather(
            words,
            &mut scene.items,
            seen,
            &self.closures,
            live,
            self.turn,
            stage,
            &mut share,
        );
        fuel.give_back(share);
        match outcome {
            Ok(()) => {}
            Err(Fault::Steps) => fuel.spend(1)?,
            Err(fault) => return Err(fault),
        }
        let denied = mem::replace(&mut gathering.denied, Vec::new(self.alloc));
        let unknown = mem::replace(&mut gathering.unknown, Vec::new(self.alloc));
        Ok((denied, unknown))
    }

    /// Hands back the candidates of the lowest generations: whether there is one.
    fn hand_back(
        &mut self,
        candidates: Vec<Candidate>,
        most: usize,
        fuel: &mut Fuel,
        out: &mut Vec<Instance>,
    ) -> Result<bool, Fault> {
        let mut candidates = candidates;
        candidates.sort_by_key(|c| c.generation)?;
        let mut made: usize = 0;
        for c in candidates.as_slice() {
            if made >= most {
                break;
            }
            if self.make(c.variable, c.terms, c.generation, fuel, out)? {
                made = made.saturating_add(1);
            }
        }
        Ok(made > 0)
    }

    /// Hands back an instance, if it is new.
    fn make(
        &mut self,
        variable: u32,
        terms: List,
        generation: u32,
        fuel: &mut Fuel,
        out: &mut Vec<Instance>,
    ) -> Result<bool, Fault> {
        let (_number, is_new) = self.done.insert(&instance_row(variable, terms), fuel)?;
        if is_new {
            out.push(Instance {
                variable,
                terms,
                generation,
            })?;
        }
        Ok(is_new)
    }

    /// Checks the assumptions in the model with defaults: a model of all, or instances at which one fails; None where neither.
    fn check<D: Decider>(
        &mut self,
        words: &mut Vocabulary,
        scene: &mut Scene<'_>,
        decider: &mut D,
        fuel: &mut Fuel,
        out: &mut Vec<Instance>,
    ) -> Result<Option<Outcome>, Fault> {
        let mut first: Vec<(u32, Vec<i128>)> = Vec::new(self.alloc);
        for defaults in [Defaults::Zero, Defaults::Frequent, Defaults::AllFrequent] {
            scene.model.set_defaults(defaults, fuel)?;
            let is_first = defaults == Defaults::Zero;
            let (fails, is_sure) = self.failures(words, scene, is_first, decider, fuel)?;
            if is_sure && fails.is_empty() {
                self.model = Some(taken(self.alloc, &mut scene.model));
                return Ok(Some(Outcome::Model));
            }
            if first.is_empty() {
                first = fails;
            }
        }
        let mut made = false;
        for fail in first.iter() {
            let values = fail.1.as_slice();
            made = self.at_values(words, scene.present, fail.0, values, fuel, out)? || made;
        }
        if !made {
            return Ok(None);
        }
        self.checks = self.checks.saturating_add(1);
        if scene.items.newest > self.limit && self.checks % 2 == 0 {
            self.limit = self.limit.saturating_add(1);
        }
        Ok(Some(if self.checks > MOST_CHECKS {
            Outcome::Stuck
        } else {
            Outcome::Again
        }))
    }

    /// The closures that fail in the model, with values at which they do: all of them or the first; and whether the others are
    /// known to hold.
    fn failures<D: Decider>(
        &self,
        words: &Vocabulary,
        scene: &mut Scene<'_>,
        all: bool,
        decider: &mut D,
        fuel: &mut Fuel,
    ) -> Result<(Vec<(u32, Vec<i128>)>, bool), Fault> {
        let mut fails = Vec::new(self.alloc);
        let mut is_sure = true;
        for i in scene.live.as_slice() {
            let closure = near(&self.closures, *i as usize)?;
            let around = closure.around(self.alloc, &words.terms, scene.present.values)?;
            let plan = closure.guard_plan(
                self.alloc,
                words,
                &mut scene.items,
                scene.present.values,
                fuel,
            )?;
            let check = Check {
                alloc: self.alloc,
                words,
                items: &scene.items,
                model: &scene.model,
                closure,
                around,
            };
            match check.verdict(plan.as_ref(), decider, fuel)? {
                Verdict::Holds => {}
                Verdict::Unsure => is_sure = false,
                Verdict::Fails(values) => fails.push((*i, values))?,
            }
            if !all && (!fails.is_empty() || !is_sure) {
                break;
            }
        }
        Ok((fails, is_sure))
    }

    /// Hands back the instance of a closure at values: at terms that have them, or else at the numbers.
    fn at_values(
        &mut self,
        words: &mut Vocabulary,
        present: &Present<'_>,
        closure: u32,
        values: &[i128],
        fuel: &mut Fuel,
        out: &mut Vec<Instance>,
    ) -> Result<bool, Fault> {
        let variable = near(&self.closures, closure as usize)?.variable;
        let generation = self.limit.saturating_add(1);
        let mut terms = Vec::with_capacity(self.alloc, values.len())?;
        let mut numbers = Vec::with_capacity(self.alloc, values.len())?;
        for x in values {
            terms.push(term_with(words, present, *x, fuel)?)?;
            numbers.push(Terms::number(*x))?;
        }
        let list = words.terms.list_of(terms.as_slice())?;
        if self.make(variable, list, generation, fuel, out)? {
            return Ok(true);
        }
        let list = words.terms.list_of(numbers.as_slice())?;
        self.make(variable, list, generation, fuel, out)
    }
}
