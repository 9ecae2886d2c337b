// The limits of the project, each said once: in code as a constant, in clauses by its name in specs/.
#![tactic(auto)]

ghost use Rattle.std.specs.Prelude.{◌≡◌};
ghost use Rattle.base_limits.specs.Limits.{branch_limit, most_budget, most_constants, most_count, most_levels, most_nodes, most_symbols};

/// The most nodes of a formula that is proved.
pub const MOST_NODES: u64 = 1_000_000;

/// The most levels of a formula that is proved.
pub const MOST_LEVELS: u64 = 2_000;

/// The most symbols that a problem declares, and so the most constants of a formula.
pub const MOST_SYMBOLS: usize = 1_000;

/// The most nodes of a branch of a proof.
pub const BRANCH_LIMIT: u32 = 2_000;

/// The greatest budget, and so the greatest number of charges of a proof.
pub const MOST_BUDGET: u64 = 1_000_000_000;

/// The greatest size of a problem that the program makes.
pub const MOST_COUNT: u64 = 1_000;

/// The constants of the code are the numbers that clauses state.
pub fn limits_law()
    ensures nodes { MOST_NODES ≡ most_nodes }
    ensures levels { MOST_LEVELS ≡ most_levels }
    ensures symbols { MOST_SYMBOLS ≡ most_symbols }
    ensures constants { MOST_SYMBOLS ≡ most_constants }
    ensures branch { BRANCH_LIMIT ≡ branch_limit }
    ensures budget { MOST_BUDGET ≡ most_budget }
    ensures count { MOST_COUNT ≡ most_count }
{}
