// The charge of a step by the names and literals of a clause, up to the greatest u64.

ghost use Rattle.clause_set.specs.Names.{area};
ghost use Rattle.base_budget.specs.Trace.{capped};
ghost use Rattle.std.specs.Prelude.{◌≡◌, ◌+◌, IfOk, length, ℕ};

use super::names::name_count;
use clause_set::Clause;
use linear_term::Memory;
use std::alloc::Global;

/// n literals, each with a place for itself and for each name of c.
pub fn area(alloc: Global, n: u64, c: &Clause) -> Result<u64, Memory>
    ensures { (k : ℕ) → n ≡ capped k → IfOk result (λ a. a ≡ capped (area k c.now)) }
{
    let names = name_count(alloc, c)? as u64;
    Ok(n.saturating_mul(names.saturating_add(1)))
}

/// 1, and each literal of c with a place for itself and for each name: the charge of a rule that writes the clause once.
pub fn whole_charge(alloc: Global, c: &Clause) -> Result<u64, Memory>
    ensures { IfOk result (λ n. n ≡ capped (1 + area (length c.now) c.now)) }
{
    let places = area(alloc, c.len() as u64, c)?;
    Ok(places.saturating_add(1))
}
