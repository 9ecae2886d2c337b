// Values that are not whole: solved equations and cuts first, then a branch (Land and Doig, An automatic method of solving
// discrete programming problems, 1960).

use crate::state::{NONE, State};
use cdcl_forms::Terms;
use cdcl_fuel::{Fault, at, near, small, sub};

/// How many rows give cuts at a time.
const ROWS: u32 = 2;

impl State {
    /// Whether a value is not whole, so that something was done.
    pub(crate) fn integers(&mut self) -> Result<bool, Fault> {
        let Some(c) = self.first_fraction()? else {
            return Ok(false);
        };
        if self.solve_equations()? {
            return Ok(true);
        }
        self.cut_turn = !self.cut_turn;
        if !self.cut_turn && self.row_cuts()? {
            return Ok(true);
        }
        self.branch_on(c)?;
        Ok(true)
    }

    /// Has the value of a constant be decided: at most its floor first.
    fn branch_on(&mut self, c: u32) -> Result<(), Fault> {
        let x = at(&self.columns, c as usize)?;
        let floor = self.knowledge.simplex.value_of(x)?.floor()?;
        let name = self.knowledge.words.terms.name(c)?;
        let above = sub(sub(0, floor)?, 1)?;
        let l = self.inequality(Terms::plus(name, above)?)?;
        self.branch = Some(l);
        Ok(())
    }

    /// The first constant whose value is not whole.
    fn first_fraction(&mut self) -> Result<Option<u32>, Fault> {
        self.fuel.spend(self.columns.len() as u64)?;
        for c in 0..self.columns.len() {
            let x = at(&self.columns, c)?;
            if x != NONE && !at(&self.knowledge.simplex.value, x as usize)?.is_whole() {
                return Ok(Some(small(c)?));
            }
        }
        Ok(None)
    }

    /// Cuts from the first rows that give some.
    fn row_cuts(&mut self) -> Result<bool, Fault> {
        let mut any: u32 = 0;
        for r in 0..self.knowledge.simplex.rows()? {
            self.fuel.spend(1)?;
            let b = near(&self.knowledge.simplex.table.rows, r as usize)?.basic;
            let is_whole = at(&self.knowledge.simplex.value, b as usize)?.is_whole();
            if !is_whole && self.row_cut(r)? {
                any = any.saturating_add(1);
            }
            if any >= ROWS {
                break;
            }
        }
        Ok(any > 0)
    }
}
