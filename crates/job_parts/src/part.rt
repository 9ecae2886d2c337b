// The parts of a budget, and a purse that is raised to the whole.

ghost use Rattle.job_parts.specs.Parts.{first_part, longer_part, raised};
ghost use Rattle.std.specs.Prelude.{◌≡◌, ◌≤◌};

use base_budget::Purse;

// How many steps of a budget the canonical run has before the clause search.
const FIRST: u64 = 100_000;

/// How many steps of this budget the canonical run has before the clause search.
pub fn first_part(budget: u64) -> u64
    ensures { result ≡ first_part budget }
{
    budget.min(FIRST)
}

// How many steps of a budget the canonical run has after a brief clause search.
const LONGER: u64 = 1_000_000;

/// How many steps of this budget the canonical run has after a brief clause search.
pub fn longer_part(budget: u64) -> u64
    ensures { result ≡ longer_part budget }
{
    budget.min(LONGER)
}

/// The purse with this budget, of which as much is spent.
pub fn with_budget(purse: &Purse, budget: u64) -> Purse
    ensures is { purse.now.spent ≤ budget → result ≡ raised budget purse.now }
    ensures within { purse.now.spent ≤ purse.now.budget }
{
    let mut whole = Purse::new(budget);
    let _charged = whole.charge(purse.spent());
    whole
}
