// The shadow of a pair of bounds b·x + s ≥ 0 and −a·x + α ≥ 0, the real one b·α + a·s ≥ 0 and the dark one
// b·α + a·s − (a − 1)(b − 1) ≥ 0, and the shadows of all pairs.

ghost use Rattle.clause_set.specs.Shadows.{dark_pair, exact_pair, factor, shadow};
ghost use Rattle.linear_term.specs.Range.{InRange};
ghost use Rattle.elim_rules.specs.Shadows.{lowered, pair_of, row_of};
ghost use Rattle.base_budget.specs.Trace.{each};
ghost use Rattle.base_budget.specs.Work.{Worked};
ghost use Rattle.std.specs.Prelude.{[]};

use super::sides::{factor, remainder};
use base_budget::StepFault;
use clause_set::Literal;
use elim_steps::{alone, combining, computing};
use linear_term::{Place, Term};
use sqlite_items::Items;
use std::alloc::Global;

/// Which shadow: the real one, which is exact where one coefficient of each pair is 1 or −1, or the dark one.
#[derive(Clone, Copy, Debug, PartialEq, Eq)]
pub enum Shadow {
    Real,
    Dark,
}

/// b·α + a·s.
#[tactic(auto, using(base_budget::proofs::Charging::working))]
fn shadow_term(low: &Literal, up: &Literal, x: u32) -> Result<Term, StepFault>
    ensures { Worked (shadow x low.now up.now) result }
{
    let upper = remainder(up, x)?;
    let lower = remainder(low, x)?;
    combining(factor(low, x), &upper, factor(up, x), &lower)
}

#[tactic(auto, using(base_budget::proofs::Charging::working))]
fn real_pair(
    alloc: Global,
    low: &Literal,
    up: &Literal,
    x: u32,
) -> Result<Items<Literal>, StepFault>
    ensures { Worked (exact_pair x low.now up.now) result }
{
    let t = shadow_term(low, up, x)?;
    Ok(alone(alloc, Literal::Geq(t))?)
}

/// t − (a − 1)(b − 1) ≥ 0.
#[tactic(auto, using(base_budget::proofs::Charging::working))]
fn lowered(alloc: Global, t: &Term, a: i128, b: i128) -> Result<Items<Literal>, StepFault>
    requires a_in_range { InRange a }
    requires b_in_range { InRange b }
    ensures { Worked (lowered t.now a b) result }
{
    let m = a - 1;
    let n = b - 1;
    computing(&[Place {
        m,
        a: n,
        n: 0,
        b: 0,
    }])?;
    let u = combining(1, t, -1, &Term::number(alloc, m * n))?;
    Ok(alone(alloc, Literal::Geq(u))?)
}

#[tactic(auto, using(base_budget::proofs::Charging::working))]
fn dark_pair(
    alloc: Global,
    low: &Literal,
    up: &Literal,
    x: u32,
) -> Result<Items<Literal>, StepFault>
    ensures { Worked (dark_pair x low.now up.now) result }
{
    let t = shadow_term(low, up, x)?;
    lowered(alloc, &t, factor(up, x), factor(low, x))
}

fn pair(
    alloc: Global,
    kind: Shadow,
    low: &Literal,
    up: &Literal,
    x: u32,
) -> Result<Items<Literal>, StepFault>
    ensures { Worked (pair_of kind x low.now up.now) result }
{
    match kind {
        Shadow::Real => real_pair(alloc, low, up, x),
        Shadow::Dark => dark_pair(alloc, low, up, x),
    }
}

/// The shadows of a lower bound with each upper bound.
#[tactic(auto, using(base_budget::proofs::Charging::leaving))]
fn row(
    alloc: Global,
    kind: Shadow,
    low: &Literal,
    ups: &[Literal],
    x: u32,
) -> Result<Items<Literal>, StepFault>
    ensures { Worked (row_of kind x ups.now low.now) result }
{
    let mut out = Items::new(alloc);
    for up in ups {
        out.append(pair(alloc, kind, low, up, x)?)?;
    }
    Ok(out)
}

/// The shadows of all pairs, lower bounds outermost.
#[tactic(auto, using(base_budget::proofs::Charging::leaving))]
pub(crate) fn shadows(
    alloc: Global,
    kind: Shadow,
    lows: &[Literal],
    ups: &[Literal],
    x: u32,
) -> Result<Items<Literal>, StepFault>
    ensures { Worked (each (row_of kind x ups.now) lows.now []) result }
{
    let mut out = Items::new(alloc);
    for low in lows {
        out.append(row(alloc, kind, low, ups, x)?)?;
    }
    Ok(out)
}
