// The splinters of a lower bound b·x + s ≥ 0: the clause with b·x + s = i, for i from 0 to (A·b − A − b)/A, where A is
// the greatest coefficient of the upper bounds.

ghost use Rattle.clause_set.specs.Shadows.{factor, splinter, splinter_count, splinters};
ghost use Rattle.clause_set.specs.Divisibilities.{numbers_from};
ghost use Rattle.linear_term.specs.Range.{InRange};
ghost use Rattle.elim_rules.specs.Splinters.{splinter_numbers};
ghost use Rattle.base_budget.specs.Trace.{compute, each};
ghost use Rattle.base_budget.specs.Work.{Worked};
ghost use Rattle.std.specs.Prelude.{◌≡◌, ◌<◌, ◌^◌, ◌<ℤ◌, [], All, pos};

use super::sides::factor;
use base_budget::StepFault;
use clause_set::{Literal, copy_literals};
use elim_steps::combining;
use linear_term::{Place, Term, floor_div};
use sqlite_items::Items;
use std::alloc::Global;

/// How many splinters there are for a lower bound with the coefficient b. It is b − ⌈b/a⌉.
pub fn splinter_count(a: i128, b: i128) -> u128
    requires a_positive { pos 0 <ℤ a }
    requires b_positive { pos 0 <ℤ b }
    requires b_in_range { InRange b }
    ensures exact { result ≡ splinter_count a b }
    ensures range { result < 2 ^ 127 }
{
    let below = floor_div(-b, a);
    (b + below).unsigned_abs()
}

/// a·b, a·b − a and a·b − a − b are in the range, or this call names one that is not.
fn bounds_stay(a: i128, b: i128) -> Result<(), StepFault>
    ensures { Worked (compute (splinter_numbers a b)) result }
{
    let whole = Place {
        m: a,
        a: b,
        n: 0,
        b: 0,
    }
    .value()?;
    let less = Place {
        m: 1,
        a: whole,
        n: -1,
        b: a,
    }
    .value()?;
    Place {
        m: 1,
        a: less,
        n: -1,
        b,
    }
    .value()?;
    Ok(())
}

/// The literals of c and b·x + s = i.
#[tactic(auto, using(base_budget::proofs::Charging::working))]
fn splinter(
    alloc: Global,
    c: &[Literal],
    low: &Literal,
    i: u128,
) -> Result<Items<Items<Literal>>, StepFault>
    requires { i < 2 ^ 127 }
    ensures { Worked (splinter c.now low.now i) result }
{
    let u = combining(1, low.term(), -1, &Term::number(alloc, i as i128))?;
    let mut literals = copy_literals(alloc, c)?;
    literals.push(Literal::Eq(u))?;
    let mut out = Items::new(alloc);
    out.push(literals)?;
    Ok(out)
}

/// The splinters of a lower bound.
#[tactic(auto, using(base_budget::proofs::Charging::leaving))]
fn splinters_of(
    alloc: Global,
    c: &[Literal],
    low: &Literal,
    count: u128,
) -> Result<Items<Items<Literal>>, StepFault>
    requires { count < 2 ^ 127 }
    ensures { Worked (each (splinter c.now low.now) (numbers_from 0 count) []) result }
{
    let mut out = Items::new(alloc);
    let mut i = 0u128;
    while i < count {
        out.append(splinter(alloc, c, low, i)?)?;
        i += 1;
    }
    Ok(out)
}

#[tactic(auto, using(base_budget::proofs::Charging::working))]
fn bounded(
    alloc: Global,
    c: &[Literal],
    low: &Literal,
    x: u32,
    a: i128,
) -> Result<Items<Items<Literal>>, StepFault>
    requires a_positive { pos 0 <ℤ a }
    requires b_positive { pos 0 <ℤ factor x low.now }
    ensures { Worked (splinters x c.now a low.now) result }
{
    let b = factor(low, x);
    bounds_stay(a, b)?;
    splinters_of(alloc, c, low, splinter_count(a, b))
}

/// The splinters of each lower bound.
#[tactic(auto, using(base_budget::proofs::Charging::leaving))]
pub(crate) fn splinters(
    alloc: Global,
    c: &[Literal],
    lows: &[Literal],
    x: u32,
    a: i128,
) -> Result<Items<Items<Literal>>, StepFault>
    requires a_positive { pos 0 <ℤ a }
    requires b_positive { All (λ low. pos 0 <ℤ factor x low) lows.now }
    ensures { Worked (each (splinters x c.now a) lows.now []) result }
{
    let mut out = Items::new(alloc);
    for low in lows {
        out.append(bounded(alloc, c, low, x, a)?)?;
    }
    Ok(out)
}
