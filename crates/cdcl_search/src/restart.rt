// When a search restarts, and when it throws away what was of little use (Luby, Sinclair and Zuckerman, Optimal speedup of Las
// Vegas algorithms, 1993).

use cdcl_fuel::Fault;
use cdcl_state::State;

/// How many conflicts there are between restarts, times the reluctant doubling sequence.
const CONFLICTS: u64 = 100;

/// How many learnt clauses, and how many rows, there are before any are thrown away.
const LEARNT: usize = 2000;

const ROWS: usize = 50;

/// The reluctant doubling sequence in Knuth's form (The Art of Computer Programming, volume 4, fascicle 6, 2015), and when to
/// restart next.
#[derive(Clone, Copy)]
pub(crate) struct Restart {
    u: u64,
    v: u64,
    until: u64,
}

impl Restart {
    pub(crate) fn new() -> Restart {
        Restart {
            u: 1,
            v: 1,
            until: CONFLICTS,
        }
    }

    /// Whether there were enough conflicts since the last restart.
    pub(crate) fn is_due(&self, conflicts: u64) -> bool {
        conflicts >= self.until
    }

    /// A restart at this number of conflicts.
    pub(crate) fn advance(&mut self, conflicts: u64) {
        let last = self.u & self.u.wrapping_neg();
        if last == self.v {
            self.u = self.u.saturating_add(1);
            self.v = 1;
        } else {
            self.v = self.v.saturating_mul(2);
        }
        self.until = conflicts.saturating_add(self.v.saturating_mul(CONFLICTS));
    }
}

/// How many learnt clauses and rows there may be.
#[derive(Clone, Copy)]
pub(crate) struct Limits {
    learnt: usize,
    rows: usize,
}

impl Limits {
    pub(crate) fn new() -> Limits {
        Limits {
            learnt: LEARNT,
            rows: ROWS,
        }
    }

    /// Takes out rows without bounds, and learnt clauses that were of little use, where there are too many.
    pub(crate) fn keep(&mut self, state: &mut State) -> Result<(), Fault> {
        self.keep_rows(state)?;
        if state.sat.learnts > self.learnt.saturating_add(state.sat.trail.lits.len()) {
            state.sat.reduce(&mut state.fuel)?;
            self.learnt = self.learnt.saturating_add(self.learnt / 10);
        }
        Ok(())
    }

    fn keep_rows(&mut self, state: &mut State) -> Result<(), Fault> {
        if state.knowledge.simplex.table.rows.len() > self.rows {
            state.knowledge.simplex.sweep()?;
            let left = state.knowledge.simplex.table.rows.len();
            self.rows = (left.saturating_mul(3) / 2).saturating_add(ROWS);
        }
        Ok(())
    }
}
