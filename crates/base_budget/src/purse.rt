// The budget of a run and what it has spent.

ghost use Rattle.base_budget.specs.Trace.{Funds, capped, pay};
ghost use Rattle.base_budget.specs.Work.{Charged};
ghost use Rattle.std.specs.Prelude.{◌≡◌, ℕ, ◌+◌, ◌<◌, ◌≤◌, OnErr, OnOk};

use super::fault::StepFault;
use std::marker::Model;

/// A charge that passes the budget.
#[derive(Clone, Copy, Debug, PartialEq, Eq)]
pub struct Spent;

/// A budget of steps, and how many of them are spent.
#[derive(Debug, Drop)]
pub struct Purse {
    budget: u64,
    spent: u64,
}

impl Model for Purse {
    ghost use Rattle.base_budget.specs.Trace.{Funds};
    ghost use Rattle.std.specs.Prelude.{◌≤◌};

    ghost Value = { Funds };

    ghost view = { λ p. record { budget = p.budget; spent = p.spent } };

    ghost invariant = { λ p. p.spent ≤ p.budget };
}

impl Purse {
    /// A purse with this budget, of which nothing is spent.
    pub fn new(budget: u64) -> Purse
        ensures { result ≡ record { budget = budget; spent = 0 } }
    {
        Purse { budget, spent: 0 }
    }

    /// The budget, in steps.
    pub fn budget(&self) -> u64
        ensures { result ≡ self.now.budget }
    {
        self.budget
    }

    /// How many steps are spent: at most the budget.
    pub fn spent(&self) -> u64
        ensures exact { result ≡ self.now.spent }
        ensures within { result ≤ self.now.budget }
    {
        self.spent
    }

    /// Spends n more steps. Refused exactly where that passes the budget; then nothing is spent.
    pub fn charge(&mut self, n: u64) -> Result<(), Spent>
        ensures ok { OnOk result (self.old.spent + n ≤ self.old.budget) }
        ensures spends { OnOk result (self.new ≡ record self.old { spent = self.old.spent + n }) }
        ensures refused { OnErr result (self.old.budget < self.old.spent + n) }
        ensures kept { OnErr result (self.new ≡ self.old) }
    {
        match self.spent.checked_add(n) {
            Some(spent) if spent <= self.budget => {
                self.spent = spent;
                Ok(())
            }
            _ => Err(Spent),
        }
    }

    /// Spends n steps as a step of a charged call: a charge above the greatest u64 comes here as the greatest u64.
    pub fn step(&mut self, n: u64) -> Result<(), StepFault>
        ensures { (k : ℕ) → n ≡ capped k → Charged (pay k) self.old result self.new }
    {
        self.charge(n)?;
        Ok(())
    }
}
