// What a clause search holds: the budget, clauses, knowledge, atoms by simplex variable, and what is still to be done.

use crate::knowledge::Knowledge;
use cdcl_forms::{Definition, Interner, Lit, Vocabulary};
use cdcl_fuel::{Fault, Fuel};
use cdcl_sat::Sat;
use cdcl_simplex::Share;
use std::alloc::Global;
use std::collections::VecDeque;

/// No number of a simplex variable.
pub(crate) const NONE: u32 = 0xFFFF_FFFF;

/// What an atom says of a simplex variable: that it is the bound, or at least the bound.
#[derive(Clone, Copy)]
pub struct Arithmetic {
    /// The simplex variable.
    pub x: u32,
    pub bound: i128,
    pub is_equation: bool,
}

/// A clause to be taken in.
#[derive(Drop)]
pub struct Pending {
    pub lits: Vec<Lit>,
    /// Its number in the log.
    pub id: u32,
    /// Whether a model has to satisfy it.
    pub is_input: bool,
}

/// The state of a clause search without its quantifiers.
#[derive(Drop)]
pub struct State {
    pub alloc: Global,
    pub fuel: Fuel,
    pub sat: Sat,
    pub knowledge: Knowledge,
    /// What each variable says, if it is an atom of arithmetic.
    pub arithmetic: Vec<Option<Arithmetic>>,
    /// The atoms of a simplex variable, and its coefficients.
    pub(crate) on: Vec<Vec<u32>>,
    pub(crate) linear_of: Vec<u32>,
    /// The simplex variable of a constant, and that of coefficients.
    pub(crate) columns: Vec<u32>,
    pub(crate) sums: Vec<u32>,
    pub(crate) equations: Vec<u32>,
    pub(crate) new_equations: Vec<u32>,
    /// Closures that are new.
    pub(crate) to_open: Vec<u32>,
    /// For-some closures that were opened, and are left to instances.
    pub to_register: Vec<u32>,
    /// The constants of quotients, by term and divisor.
    pub(crate) quotients: Interner<u64>,
    pub(crate) quotient_constants: Vec<u32>,
    /// Clauses to be taken in, the oldest first.
    pub queue: VecDeque<Pending>,
    /// A false clause that was found where all clauses were true.
    pub pending: Option<u32>,
    /// A literal to be decided as false, so that a value becomes whole.
    pub branch: Option<Lit>,
    pub(crate) conflict: Vec<Share>,
    pub(crate) factors: Vec<(Lit, i128)>,
    /// The present values of constants.
    pub values: Vec<i128>,
    pub(crate) key: Vec<u64>,
    /// Whether the first values of constants are far apart.
    pub(crate) apart: bool,
    /// Whether cuts of rows come before a branch.
    pub(crate) cut_turn: bool,
}

impl State {
    /// The state before anything is known: a variable that is always true, and nothing else.
    pub fn new(alloc: Global, words: Vocabulary, budget: u64) -> Result<State, Fault> {
        let apart = !words.tree.info(words.tree.root)?.is_pure;
        let mut state = State {
            alloc,
            fuel: Fuel::new(budget),
            sat: Sat::new(alloc),
            knowledge: Knowledge::new(alloc, words),
            arithmetic: Vec::new(alloc),
            on: Vec::new(alloc),
            linear_of: Vec::new(alloc),
            columns: Vec::new(alloc),
            sums: Vec::new(alloc),
            equations: Vec::new(alloc),
            new_equations: Vec::new(alloc),
            to_open: Vec::new(alloc),
            to_register: Vec::new(alloc),
            quotients: Interner::new(alloc),
            quotient_constants: Vec::new(alloc),
            queue: VecDeque::new(alloc),
            pending: None,
            branch: None,
            conflict: Vec::new(alloc),
            factors: Vec::new(alloc),
            values: Vec::new(alloc),
            key: Vec::new(alloc),
            apart,
            cut_turn: false,
        };
        state.make(0, Definition::Always)?;
        Ok(state)
    }
}
