// How many steps and nodes a judgement may still take.

use crate::fault::Fault;

/// What is left to take.
#[derive(Clone, Copy, Debug)]
pub struct Effort {
    pub steps: u64,
    pub nodes: u64,
}

impl Effort {
    /// Takes n steps. Refused where fewer are left; then none are left.
    pub fn step(&mut self, n: u64) -> Result<(), Fault> {
        match self.steps.checked_sub(n) {
            Some(left) => {
                self.steps = left;
                Ok(())
            }
            None => {
                self.steps = 0;
                Err(Fault::Steps)
            }
        }
    }

    /// Takes a step and a node.
    pub fn node(&mut self) -> Result<(), Fault> {
        self.step(1)?;
        match self.nodes.checked_sub(1) {
            Some(left) => {
                self.nodes = left;
                Ok(())
            }
            None => Err(Fault::Room),
        }
    }
}
