// The numbers that tell what a run did.

use base_watch::{Instances, Progress, Stage};

/// What canonical runs did. Each number stays at 2^64 - 1 where it would pass that.
#[derive(Clone, Copy, Debug, PartialEq, Eq)]
pub struct RunCounts {
    /// The steps that were charged.
    pub steps: u64,
    /// The rounds that began.
    pub rounds: u64,
    /// The nodes that were entered, leaves among them.
    pub nodes: u64,
    /// The leaves that were entered.
    pub leaves: u64,
    /// The constraints of nodes that took an elimination of a rule or more.
    pub eliminations: u64,
    /// The steps that were charged after a leaf was entered and before the next node was: for closing it, and for constraints.
    pub constraint_steps: u64,
}

impl RunCounts {
    /// Nothing.
    pub const ZERO: RunCounts = RunCounts {
        steps: 0,
        rounds: 0,
        nodes: 0,
        leaves: 0,
        eliminations: 0,
        constraint_steps: 0,
    };

    /// Both together.
    pub(crate) fn plus(&self, other: &RunCounts) -> RunCounts {
        RunCounts {
            steps: self.steps.saturating_add(other.steps),
            rounds: self.rounds.saturating_add(other.rounds),
            nodes: self.nodes.saturating_add(other.nodes),
            leaves: self.leaves.saturating_add(other.leaves),
            eliminations: self.eliminations.saturating_add(other.eliminations),
            constraint_steps: self.constraint_steps.saturating_add(other.constraint_steps),
        }
    }
}

/// What a run of the program did, over all its searches.
#[derive(Clone, Copy, Debug)]
pub struct Counts {
    /// All canonical runs that ended.
    pub canonical: RunCounts,
    /// The canonical run that began last.
    pub last: RunCounts,
    /// How many canonical runs, and how many clause searches, began.
    pub runs: u64,
    pub searches: u64,
    /// All clause searches that ended.
    pub clauses: Progress,
    /// The steps of eliminations of all quantifiers, where these are the job.
    pub elimination_steps: u64,
    /// The steps of the job that finds a least value, with those of the elimination before it.
    pub least_steps: u64,
    /// The quantifiers that were instantiated most often, the first one most; those with no instance stand for none.
    pub(crate) most: [Instances; MOST],
    /// The stage that is in progress, with its budget.
    pub(crate) stage: Option<Stage>,
    pub(crate) budget: u64,
    /// How far the clause search in progress is.
    pub(crate) search: Progress,
}

/// What is told of a run after it.
#[derive(Clone, Copy)]
pub struct Statistics<'a> {
    pub counts: &'a Counts,
    /// The greatest memory in KiB, where the system tells that.
    pub memory: Option<u64>,
}

/// How many quantifiers are kept.
pub(crate) const MOST: usize = 4;

/// No quantifier.
const NO_INSTANCES: Instances = Instances {
    quantifier: 0,
    count: 0,
    predicates: 0,
    functions: 0,
};

/// A search that has not begun.
pub(crate) const NO_PROGRESS: Progress = Progress {
    steps: 0,
    conflicts: 0,
    decisions: 0,
    instances: 0,
};

impl Counts {
    /// Nothing was done yet.
    pub fn new() -> Counts {
        Counts {
            canonical: RunCounts::ZERO,
            last: RunCounts::ZERO,
            runs: 0,
            searches: 0,
            clauses: NO_PROGRESS,
            elimination_steps: 0,
            least_steps: 0,
            most: [NO_INSTANCES; MOST],
            stage: None,
            budget: 0,
            search: NO_PROGRESS,
        }
    }

    /// The stage that is in progress or ended last.
    pub fn stage(&self) -> Option<Stage> {
        self.stage
    }

    /// The budget of the stage that began last.
    pub fn budget(&self) -> u64 {
        self.budget
    }

    /// The quantifiers that were instantiated most often, at most four, the first one most.
    pub fn most_instantiated(&self) -> &[Instances] {
        self.most.as_slice()
    }

    /// How far the clause search is that began last.
    pub fn search(&self) -> Progress {
        self.search
    }
}
