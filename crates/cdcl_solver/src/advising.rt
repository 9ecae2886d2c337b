// The advisor of the search: quantifiers by instances, with elimination for the check of models, and small models that are tried
// beside those of the search.

use crate::guessing::guessed;
use crate::target::Target;
use cdcl_deciding::Elimination;
use cdcl_forms::{Instance, Present, Vocabulary};
use cdcl_fuel::{Fault, Fuel};
use cdcl_instances::{Outcome, Quantifiers};
use cdcl_matching::Items;
use cdcl_models::Model;
use cdcl_search::{Advice, Advisor};
use std::alloc::Global;

/// The first round in which small models are tried. They are tried again after twice as many, and so on.
const FIRST_GUESS: u64 = 4;

/// Which part of the steps so far one small model may take, and how many steps it may take at least.
const GUESS_PART: u64 = 128;

const LEAST_STEPS: u64 = 2000;

/// Advises a search by instances of its quantifiers.
#[derive(Drop)]
pub(crate) struct Instances<'a> {
    alloc: Global,
    quantifiers: Quantifiers,
    decider: Elimination,
    target: Target<'a>,
    budget: u64,
    rounds: u64,
    next_guess: u64,
    guess: Option<Model>,
}

impl<'a> Instances<'a> {
    /// An advisor for a search of this budget.
    pub(crate) fn new(alloc: Global, target: Target<'a>, budget: u64) -> Instances<'a> {
        Instances {
            alloc,
            quantifiers: Quantifiers::new(alloc),
            decider: Elimination { alloc },
            target,
            budget,
            rounds: 0,
            next_guess: FIRST_GUESS,
            guess: None,
        }
    }

    /// The model of the last advice, if that was a model.
    pub(crate) fn model(self) -> Option<Model> {
        let Instances {
            quantifiers,
            guess,
            ..
        } = self;
        match guess {
            Some(model) => Some(model),
            None => quantifiers.model(),
        }
    }

    /// Whether a small model is found beside the tables of the present one.
    fn has_guess(
        &mut self,
        words: &Vocabulary,
        present: &Present<'_>,
        fuel: &mut Fuel,
    ) -> Result<bool, Fault> {
        let items = Items::new(self.alloc, words, present.values, fuel)?;
        let tables = Model::new(self.alloc, &items, present, fuel)?;
        let so_far = self.budget.saturating_sub(fuel.left());
        let steps = (so_far / GUESS_PART).max(LEAST_STEPS);
        self.guess = guessed(self.alloc, self.target, tables, steps, fuel)?;
        Ok(self.guess.is_some())
    }

    /// Whether small models are to be tried in this round, which is counted.
    fn is_due(&mut self, outcome: Outcome) -> bool {
        self.rounds = self.rounds.saturating_add(1);
        match outcome {
            Outcome::Model => false,
            Outcome::Stuck => true,
            Outcome::Again if self.rounds < self.next_guess => false,
            Outcome::Again => {
                self.next_guess = self.next_guess.saturating_mul(2);
                true
            }
        }
    }
}

impl Advisor for Instances<'_> {
    fn register(
        &mut self,
        words: &mut Vocabulary,
        variable: u32,
        fuel: &mut Fuel,
    ) -> Result<(), Fault> {
        self.quantifiers.register(words, variable, fuel)
    }

    fn advise(
        &mut self,
        words: &mut Vocabulary,
        present: Present<'_>,
        fuel: &mut Fuel,
        out: &mut Vec<Instance>,
    ) -> Result<Advice, Fault> {
        let outcome = self
            .quantifiers
            .round(words, present, &mut self.decider, fuel, out)?;
        if self.is_due(outcome) && self.has_guess(words, &present, fuel)? {
            return Ok(Advice::Model);
        }
        Ok(match outcome {
            Outcome::Again => Advice::Again,
            Outcome::Model => Advice::Model,
            Outcome::Stuck => Advice::Stuck,
        })
    }
}
