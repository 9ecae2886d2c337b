// Bounds of a name on both sides: the dark shadow, where some value surely lies between them, and for the values outside
// of it the splinters of each lower bound.

ghost use Rattle.clause_set.specs.Names.{area, others};
ghost use Rattle.clause_set.specs.Rules.{is_two_sided};
ghost use Rattle.clause_set.specs.Shadows.{dark, factor, lowers, splinter_count, uppers};
ghost use Rattle.linear_term.specs.Range.{InRange};
ghost use Rattle.elim_rules.specs.Shadows.{dark_charge};
ghost use Rattle.base_budget.specs.Trace.{capped, pay};
ghost use Rattle.base_budget.specs.Work.{Charged};
ghost use Rattle.std.specs.Prelude.{◌≡◌, ◌+◌, ◌*◌, ◌<ℤ◌, All, IfOk, length, pos, sum_by, true, ℕ};

use super::exact_shadow::charge as shadow_charge;
use super::shadow::{Shadow, shadows};
use super::sides::{Side, factor, greatest_factor, literals_on};
use super::splinter::{splinter_count, splinters};
use base_budget::{Purse, StepFault};
use clause_set::{Clause, Literal};
use elim_steps::{area, clauses};
use linear_term::Memory;
use sqlite_items::Items;
use std::alloc::Global;

/// The number of splinters of a lower bound with the coefficient b, up to the greatest u64.
fn capped_count(a: i128, b: i128) -> u64
    requires a_positive { pos 0 <ℤ a }
    requires b_positive { pos 0 <ℤ b }
    requires b_in_range { InRange b }
    ensures { result ≡ capped (splinter_count a b) }
{
    splinter_count(a, b).min(u64::MAX as u128) as u64
}

/// The number of all splinters, up to the greatest u64.
#[tactic(auto, using(clause_set::proofs::Weights::weights))]
fn count_all(lows: &[Literal], x: u32, a: i128) -> u64
    requires a_positive { pos 0 <ℤ a }
    requires b_positive { All (λ low. pos 0 <ℤ factor x low) lows.now }
    ensures { result ≡ capped (sum_by (λ low. splinter_count a (factor x low)) lows.now) }
{
    let mut sum = 0u64;
    for low in lows {
        sum = sum.saturating_add(capped_count(a, factor(low, x)));
    }
    sum
}

/// 1, the literals of the shadow, and for each splinter those of the clause and one more, each with a place for itself
/// and for each name.
fn charge(
    alloc: Global,
    c: &Clause,
    others: usize,
    lows: usize,
    ups: usize,
    count: u64,
) -> Result<u64, Memory>
    ensures { (k : ℕ) → count ≡ capped k → IfOk result (λ n. n ≡ capped (1 + area (others + lows * ups) c.now + k * area (length c.now + 1) c.now)) }
{
    let shadow = shadow_charge(alloc, c, others, lows, ups)?;
    let each = area(alloc, (c.len() as u64).saturating_add(1), c)?;
    Ok(shadow.saturating_add(count.saturating_mul(each)))
}

/// Pays for the literals of the dark shadow and of the splinters.
#[tactic(auto, using(base_budget::proofs::Charging::charging))]
fn pay(
    alloc: Global,
    c: &Clause,
    x: u32,
    rest: usize,
    lows: &[Literal],
    ups: &[Literal],
    a: i128,
    purse: &mut Purse,
) -> Result<(), StepFault>
    requires rest { rest ≡ length (others x c.now) }
    requires lows { lows.now ≡ lowers x c.now }
    requires ups { ups.now ≡ uppers x c.now }
    requires a_positive { pos 0 <ℤ a }
    ensures { Charged (pay (dark_charge x c.now a)) purse.old result purse.new }
{
    let count = count_all(lows, x, a);
    let whole = charge(alloc, c, rest, lows.len(), ups.len(), count)?;
    purse.step(whole)
}

/// The dark shadow, then the splinters of each lower bound.
#[tactic(auto, using(base_budget::proofs::Charging::charging))]
pub fn dark(
    alloc: Global,
    c: &Clause,
    x: u32,
    lows: &[Literal],
    ups: &[Literal],
    purse: &mut Purse,
) -> Result<Items<Clause>, StepFault>
    requires lows { lows.now ≡ lowers x c.now }
    requires ups { ups.now ≡ uppers x c.now }
    requires two_sided { is_two_sided x c.now ≡ true }
    ensures { Charged (dark x c.now) purse.old result purse.new }
{
    let a = greatest_factor(ups, x);
    c.know_clause();
    let mut first = literals_on(alloc, c.literals(), x, Side::Without)?;
    pay(alloc, c, x, first.len(), lows, ups, a, purse)?;
    first.append(shadows(alloc, Shadow::Dark, lows, ups, x)?)?;
    let mut all = Items::new(alloc);
    all.push(first)?;
    all.append(splinters(alloc, c.literals(), lows, x, a)?)?;
    Ok(clauses(alloc, all.as_slice())?)
}
