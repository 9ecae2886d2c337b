// Bounds of a name on both sides, of which those of one side all have the coefficient 1 or −1: the real shadow is exact.

ghost use Rattle.clause_set.specs.Shadows.{exact, lowers, shadow_length, uppers};
ghost use Rattle.clause_set.specs.Names.{area, others};
ghost use Rattle.base_budget.specs.Trace.{capped};
ghost use Rattle.base_budget.specs.Work.{Charged};
ghost use Rattle.std.specs.Prelude.{◌≡◌, ◌+◌, ◌*◌, IfOk, length};

use super::shadow::{Shadow, shadows};
use super::sides::{Side, literals_on};
use base_budget::{Purse, StepFault};
use clause_set::{Clause, Literal};
use elim_steps::{area, in_form};
use linear_term::Memory;
use sqlite_items::Items;
use std::alloc::Global;

/// How many literals a shadow has: one for each pair of bounds, and the others.
pub(crate) fn shadow_length(others: usize, lows: usize, ups: usize) -> u64
    ensures { result ≡ capped (others + lows * ups) }
{
    (others as u64).saturating_add((lows as u64).saturating_mul(ups as u64))
}

/// 1, and each literal of the shadow with a place for itself and for each name.
pub(crate) fn charge(
    alloc: Global,
    c: &Clause,
    others: usize,
    lows: usize,
    ups: usize,
) -> Result<u64, Memory>
    ensures { IfOk result (λ n. n ≡ capped (1 + area (others + lows * ups) c.now)) }
{
    let places = area(alloc, shadow_length(others, lows, ups), c)?;
    Ok(places.saturating_add(1))
}

/// What the exact shadow leaves of a clause whose bounds of x are `lows` and `ups`. Refused as `dark` is.
#[tactic(auto, using(base_budget::proofs::Charging::charging), unfolding(clause_set::specs::Shadows::exact))]
pub fn exact(
    alloc: Global,
    c: &Clause,
    x: u32,
    lows: &[Literal],
    ups: &[Literal],
    purse: &mut Purse,
) -> Result<Items<Clause>, StepFault>
    requires lows { lows.now ≡ lowers x c.now }
    requires ups { ups.now ≡ uppers x c.now }
    ensures { Charged (exact x c.now) purse.old result purse.new }
{
    c.know_clause();
    let mut literals = literals_on(alloc, c.literals(), x, Side::Without)?;
    purse.step(charge(alloc, c, literals.len(), lows.len(), ups.len())?)?;
    literals.append(shadows(alloc, Shadow::Real, lows, ups, x)?)?;
    Ok(in_form(alloc, literals)?)
}
