// Why a search stops, and the budget.

use std::alloc::{AllocError, AllocFailed};

/// Why a search stops.
#[derive(Clone, Copy, Debug, PartialEq, Eq)]
pub enum Fault {
    /// The budget is used up.
    Steps,
    /// A number leaves its range.
    Overflow,
    /// Out of memory.
    Memory,
    /// A number names nothing: what cannot happen.
    Broken,
}

impl From<AllocError> for Fault {
    fn from(_error: AllocError) -> Fault {
        Fault::Memory
    }
}

impl<T: Drop> From<AllocFailed<T>> for Fault {
    fn from(_failed: AllocFailed<T>) -> Fault {
        Fault::Memory
    }
}

/// How many steps are left.
#[derive(Clone, Copy, Debug)]
pub struct Fuel {
    left: u64,
}

impl Fuel {
    pub fn new(left: u64) -> Fuel {
        Fuel { left }
    }

    pub fn left(&self) -> u64 {
        self.left
    }

    #[inline]
    pub fn spend(&mut self, n: u64) -> Result<(), Fault> {
        match self.left.checked_sub(n) {
            Some(left) => {
                self.left = left;
                Ok(())
            }
            None => {
                self.left = 0;
                Err(Fault::Steps)
            }
        }
    }

    /// Takes n steps out as a budget of its own, or all where fewer are left.
    pub fn share(&mut self, n: u64) -> Fuel {
        let taken = n.min(self.left);
        self.left = self.left.saturating_sub(taken);
        Fuel { left: taken }
    }

    /// Gives back what is left of a budget that was taken out.
    pub fn give_back(&mut self, rest: Fuel) {
        self.left = self.left.saturating_add(rest.left);
    }
}
