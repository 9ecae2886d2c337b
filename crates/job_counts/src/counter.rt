// How each thing that happens in a run is counted.

use crate::counts::{Counts, NO_PROGRESS, RunCounts};
use base_watch::{Event, Instances, Progress, Stage, Watch};

impl Watch for Counts {
    fn tell(&mut self, event: Event) {
        match event {
            Event::Begins { stage, budget } => self.begin(stage, budget),
            Event::Ends { stage, steps } => self.end(stage, steps),
            Event::Round { limit: _, steps } => {
                self.last.steps = steps;
                self.last.rounds = self.last.rounds.saturating_add(1);
            }
            Event::Walked(walked) => {
                self.last.nodes = walked.nodes;
                self.last.leaves = walked.leaves;
                self.last.eliminations = walked.eliminations;
                self.last.constraint_steps = walked.constraint_steps;
            }
            Event::Searched(progress) => self.search = progress,
            Event::Instantiated(instances) => self.instantiated(instances),
        }
    }
}

impl Counts {
    fn begin(&mut self, stage: Stage, budget: u64) {
        self.stage = Some(stage);
        self.budget = budget;
        match stage {
            Stage::Canonical => {
                self.runs = self.runs.saturating_add(1);
                self.last = RunCounts::ZERO;
            }
            Stage::Clauses => {
                self.searches = self.searches.saturating_add(1);
                self.search = NO_PROGRESS;
            }
            Stage::Elimination | Stage::Least => {}
        }
    }

    fn end(&mut self, stage: Stage, steps: u64) {
        match stage {
            Stage::Canonical => {
                self.last.steps = steps;
                self.canonical = self.canonical.plus(&self.last);
            }
            Stage::Clauses => self.clauses = together(&self.clauses, &self.search),
            Stage::Elimination => self.elimination_steps = steps,
            Stage::Least => self.least_steps = steps,
        }
    }
}

impl Counts {
    /// A quantifier was instantiated: it takes the place of those with fewer instances.
    fn instantiated(&mut self, instances: Instances) {
        let mut next = instances;
        for place in &mut self.most {
            if place.count < next.count {
                let fewer = *place;
                *place = next;
                next = fewer;
            }
        }
    }
}

/// Two searches together.
fn together(one: &Progress, other: &Progress) -> Progress {
    Progress {
        steps: one.steps.saturating_add(other.steps),
        conflicts: one.conflicts.saturating_add(other.conflicts),
        decisions: one.decisions.saturating_add(other.decisions),
        instances: one.instances.saturating_add(other.instances),
    }
}
