// What is asked of a decision procedure for pure formulas, so that models do not stand on one.

use cdcl_fuel::{Fault, Fuel};
use formula::Core;
use std::alloc::Global;

/// Whether some values of names make a formula true.
#[derive(Drop)]
pub enum Solution {
    /// None do.
    None,
    /// These do.
    Values(Vec<i128>),
    /// The work was cut.
    Cut,
}

/// A decision procedure.
pub trait Decider {
    /// Values of this many names at which the pure formula is true, with about this many steps of its own.
    fn solve(
        &mut self,
        f: &Core,
        names: u32,
        steps: u64,
        fuel: &mut Fuel,
    ) -> Result<Solution, Fault>;
}

/// Decides nothing but what is plainly true or false.
#[derive(Clone, Copy)]
pub struct Undecided {
    pub alloc: Global,
}

impl Decider for Undecided {
    fn solve(
        &mut self,
        f: &Core,
        names: u32,
        _steps: u64,
        fuel: &mut Fuel,
    ) -> Result<Solution, Fault> {
        fuel.spend(1)?;
        match plain(f) {
            Some(true) => Ok(Solution::Values(vec![in self.alloc; 0; names as usize]?)),
            Some(false) => Ok(Solution::None),
            None => Ok(Solution::Cut),
        }
    }
}

/// The truth of a formula that is a connective without members.
pub fn plain(f: &Core) -> Option<bool> {
    match f {
        Core::And(members) if members.is_empty() => Some(true),
        Core::Or(members) if members.is_empty() => Some(false),
        _ => None,
    }
}
