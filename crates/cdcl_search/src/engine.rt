// The search: its state, and its loop.

use crate::advisor::Advisor;
use crate::answer::{Answer, Cause};
use crate::deciding;
use crate::finish::Final;
use crate::restart::{Limits, Restart};
use crate::tally::Tally;
use base_watch::{Event, Progress, Watch};
use cdcl_forms::{List, TRUE, Term, Terms, Vocabulary, negated};
use cdcl_fuel::{Fault, Fuel, small};
use cdcl_state::{Pending, State};
use cdcl_steps::write_proof;
use formula::Core;
use std::alloc::Global;

/// A search for a proof that a root is true at integers for its names, or for a model in which it is false there.
#[derive(Drop)]
pub struct Search<Q> {
    pub(crate) state: State,
    pub(crate) advisor: Q,
    /// The integers for the names of the root.
    at: List,
    restart: Restart,
    limits: Limits,
    /// How often all clauses were true.
    pub finals: u64,
    /// How many instances were made.
    pub instances: u64,
    decisions: u64,
    budget: u64,
    pub(crate) tally: Tally,
}

/// After how many rounds of the loop who watches is told how far the search is.
const ROUNDS: u64 = 4096;

/// What a round of the loop finds.
enum Round {
    Again,
    Proved,
    Model,
    Stuck,
}

impl<Q: Advisor + Drop> Search<Q> {
    /// A search with a budget of steps, at these integers for the names of the root, from the first on.
    pub fn new(
        alloc: Global,
        root: &Core,
        values: &[i128],
        advisor: Q,
        budget: u64,
    ) -> Result<Search<Q>, Fault> {
        let mut words = Vocabulary::new(alloc, root, small(values.len())?)?;
        let at = numbers(alloc, &mut words, values)?;
        let state = State::new(alloc, words, budget)?;
        Ok(Search {
            state,
            advisor,
            at,
            restart: Restart::new(),
            limits: Limits::new(),
            finals: 0,
            instances: 0,
            decisions: 0,
            budget,
            tally: Tally::new(alloc),
        })
    }

    /// How many conflicts there were.
    pub fn conflicts(&self) -> u64 {
        self.state.sat.conflicts
    }

    /// The advisor, which knows the model of the last answer.
    pub fn into_advisor(self) -> Q {
        let Search { advisor, .. } = self;
        advisor
    }

    /// What is left of the budget.
    pub fn left(&self) -> u64 {
        self.state.fuel.left()
    }

    /// How far the search is.
    pub fn progress(&self) -> Progress {
        Progress {
            steps: self.budget.saturating_sub(self.left()),
            conflicts: self.conflicts(),
            decisions: self.decisions,
            instances: self.instances,
        }
    }

    /// Tells of each quantifier that was instantiated.
    pub fn tell_instances<X: Watch>(&self, watch: &mut X) {
        self.tally.tell(&self.state.knowledge.words.tree, watch);
    }

    /// Searches until there is an answer, or a fault ends the search. Who watches is told now and then how far it is.
    pub fn run<X: Watch>(&mut self, watch: &mut X) -> Result<Answer, Fault> {
        begin(&mut self.state, self.at)?;
        self.register_all()?;
        for round in 0..u64::MAX {
            self.state.fuel.spend(1)?;
            if round % ROUNDS == 0 {
                watch.tell(Event::Searched(self.progress()));
            }
            match self.round()? {
                Round::Again => {}
                Round::Proved => return proof(&self.state),
                Round::Model => return Ok(Answer::Model),
                Round::Stuck => return Ok(Answer::GaveUp(Cause::Quantifiers)),
            }
        }
        Err(Fault::Steps)
    }

    fn round(&mut self) -> Result<Round, Fault> {
        if let Some(round) = settled(&mut self.state, &mut self.restart)? {
            return Ok(round);
        }
        self.limits.keep(&mut self.state)?;
        if deciding::branch(&mut self.state)? || deciding::decide_next(&mut self.state)? {
            self.decisions = self.decisions.saturating_add(1);
            return Ok(Round::Again);
        }
        self.state.fuel.spend(10)?;
        self.finals = self.finals.saturating_add(1);
        match self.final_check()? {
            Final::Again => {
                self.state.open_all()?;
                self.register_all()?;
                Ok(Round::Again)
            }
            Final::Model => Ok(Round::Model),
            Final::Stuck => Ok(Round::Stuck),
        }
    }
}

/// The answer of a search whose last clause is empty.
fn proof(state: &State) -> Result<Answer, Fault> {
    let mut fuel = Fuel::new(u64::MAX);
    let proof = write_proof(&state.knowledge.log, &state.knowledge.words, &mut fuel)?;
    Ok(Answer::Proof(proof))
}

/// Integers as a list of terms.
fn numbers(alloc: Global, words: &mut Vocabulary, values: &[i128]) -> Result<List, Fault> {
    let mut terms: Vec<Term> = Vec::with_capacity(alloc, values.len())?;
    for k in values {
        terms.push(Terms::number(*k))?;
    }
    words.terms.list_of(terms.as_slice())
}

/// The root is false at the integers for its names.
fn begin(state: &mut State, at: List) -> Result<(), Fault> {
    let root = state.knowledge.words.tree.root;
    let x = state.knowledge.words.formula(root, at)?;
    let l = state.literal(x)?;
    let id = state.knowledge.log.root(l)?;
    state.input(&[TRUE], id)?;
    state.input(&[negated(l)], id.saturating_add(1))?;
    state.open_all()
}

/// What has to be done before a decision: conflicts, new clauses, propagation, restarts. None where there is nothing.
fn settled(state: &mut State, restart: &mut Restart) -> Result<Option<Round>, Fault> {
    state.bound_equations()?;
    if state.sat.turned {
        state.sat.again(&mut state.fuel)?;
    }
    if let Some(c) = state.pending.take() {
        return learn(state, c);
    }
    if let Some(p) = state.queue.pop_front() {
        return attach(state, &p);
    }
    if let Some(c) = state.propagate()? {
        return learn(state, c);
    }
    if restart.is_due(state.sat.conflicts) {
        restart.advance(state.sat.conflicts);
        state.sat.cancel(&mut state.knowledge, 0)?;
        state.knowledge.simplex.sweep()?;
        return Ok(Some(Round::Again));
    }
    Ok(None)
}

/// Takes a clause in.
fn attach(state: &mut State, p: &Pending) -> Result<Option<Round>, Fault> {
    state.fuel.spend(p.lits.len() as u64)?;
    let found = state
        .sat
        .attach(&mut state.knowledge, p.lits.as_slice(), p.id, p.is_input)?;
    match found {
        Some(c) => learn(state, c),
        None => Ok(Some(Round::Again)),
    }
}

/// Learns from a false clause.
fn learn(state: &mut State, conflict: u32) -> Result<Option<Round>, Fault> {
    let more = state
        .sat
        .learn(&mut state.knowledge, conflict, &mut state.fuel)?;
    Ok(Some(if more { Round::Again } else { Round::Proved }))
}
