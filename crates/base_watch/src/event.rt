// What happens in a run.

use crate::walked::Walked;

/// What happens in a run. Steps are those that its stage charged up to then.
#[derive(Clone, Copy, Debug, PartialEq, Eq)]
pub enum Event {
    /// A stage begins, with this budget of steps.
    Begins { stage: Stage, budget: u64 },
    /// A stage ends.
    Ends { stage: Stage, steps: u64 },
    /// The canonical run begins its next round: in it a branch may instantiate a quantifier `limit` times.
    Round { limit: u32, steps: u64 },
    /// The canonical run ended a round, or was cut in it: what its rounds did so far.
    Walked(Walked),
    /// How far the clause search is.
    Searched(Progress),
    /// The clause search instantiated a quantifier.
    Instantiated(Instances),
}

/// A part of a run that has a budget of its own.
#[derive(Clone, Copy, Debug, PartialEq, Eq)]
pub enum Stage {
    /// The canonical run.
    Canonical,
    /// The clause search, whose steps are shorter.
    Clauses,
    /// The elimination of all quantifiers.
    Elimination,
    /// The search for the least value.
    Least,
}

/// How often the clause search instantiated a quantifier of the prepared formula, and which symbols occur in that. Bit n stands for
/// the predicate or the function with number n, and bit 63 for each from 63 on.
#[derive(Clone, Copy, Debug, PartialEq, Eq)]
pub struct Instances {
    /// The number of the quantified formula.
    pub quantifier: u32,
    pub count: u64,
    pub predicates: u64,
    pub functions: u64,
}

/// How far a clause search is.
#[derive(Clone, Copy, Debug, PartialEq, Eq)]
pub struct Progress {
    pub steps: u64,
    pub conflicts: u64,
    pub decisions: u64,
    pub instances: u64,
}
