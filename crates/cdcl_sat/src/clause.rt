// Clauses, and how a clause finds another literal to watch.

use cdcl_forms::Lit;
use cdcl_fuel::{Fault, at};

#[derive(Drop)]
pub struct Clause {
    pub lits: Vec<Lit>,
    /// Its number in the log.
    pub id: u32,
    pub learnt: bool,
    /// Whether its first two literals are watched.
    pub attached: bool,
    pub activity: f64,
    /// How many levels it had literals of when it was learnt.
    pub levels: u32,
}

/// A clause in the list of a literal, and another literal of it.
#[derive(Clone, Copy)]
pub struct Watch {
    pub clause: u32,
    pub other: Lit,
}

impl Watch {
    /// The same with this literal as the other one.
    #[inline]
    pub(crate) fn beside(self, other: Lit) -> Watch {
        Watch {
            clause: self.clause,
            other,
        }
    }
}

/// What became of a clause of which a watched literal is false.
#[derive(Clone, Copy)]
pub(crate) enum Visited {
    /// This literal of it is true.
    True(Lit),
    /// The second is watched now; the first is watched too.
    Moved(Lit, Lit),
    /// All others are false.
    Unit(Lit),
}

impl Clause {
    /// Looks for another literal to watch in the place of the false one f.
    #[inline]
    pub(crate) fn rewatch(&mut self, value: &[i8], f: Lit) -> Result<Visited, Fault> {
        let ls = self.lits.as_mut_slice();
        if ls.len() < 2 {
            return Err(Fault::Broken);
        }
        if ls[0] == f {
            ls.swap(0, 1);
        }
        let first = ls[0];
        if at(value, first as usize)? == 1 {
            return Ok(Visited::True(first));
        }
        for k in 2..ls.len() {
            let l = ls[k];
            if at(value, l as usize)? != -1 {
                ls.swap(1, k);
                return Ok(Visited::Moved(first, l));
            }
        }
        Ok(Visited::Unit(first))
    }
}
