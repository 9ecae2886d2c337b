// The arguments of an operator, one after the other.

ghost use Rattle.std.specs.Prelude.{◌≡◌, ◌+◌, ◌*◌, IfOk, drop, get_or, false, if◌then◌else◌};
ghost use Rattle.smt_sizes.specs.Weight.{nothing};
ghost use Rattle.smt_sizes.specs.Weight as weight;
ghost use Rattle.smt_sizes.specs.Linear.{sum};
ghost use Rattle.smt_sizes.specs.Operators.{by_kind, chain, each, falls, if_none, inside, joint, linked, next, rises};

use crate::linear::Linear;
use crate::weight::{NODE, NOTHING, UNIT, Weight, plus, times, up};
use linear_term::Memory;

/// Each argument once, with a constant.
pub(crate) fn each(
    before: Linear,
    wanted: bool,
    constant: Weight,
    factor: Weight,
    kinds: &[bool],
) -> Result<Linear, Memory>
    ensures { IfOk result (λ l. sum l ≡ each wanted constant factor kinds.now (sum before)) }
{
    let mut all = before;
    for kind in kinds {
        all = all.add(wanted, *kind, constant, factor)?;
    }
    Ok(all)
}

/// One copy this many steps further down.
pub(crate) fn climbed(step: usize, levels: usize) -> Weight
    ensures { result ≡ weight.up (step * levels) }
{
    up(step.saturating_mul(levels))
}

/// Grouped to the left.
pub(crate) fn falls(
    before: Linear,
    wanted: bool,
    step: usize,
    constant: Weight,
    kinds: &[bool],
) -> Result<Linear, Memory>
    ensures { IfOk result (λ l. sum l ≡ falls wanted step constant kinds.now (sum before)) }
{
    let mut all = before;
    for i in 0..kinds.len() {
        let inner = times(climbed(step, kinds.len() - i - 1), constant);
        all = all.add(wanted, kinds[i], inner, climbed(step, kinds.len() - i))?;
    }
    Ok(all)
}

/// The first where this is the last argument, else the second.
fn if_last(i: usize, kinds: &[bool], last: Weight, other: Weight) -> Weight
    ensures { result ≡ if_none (drop (i + 1) kinds.now) last other }
{
    if i < kinds.len() && i + 1 < kinds.len() {
        other
    } else {
        last
    }
}

/// Grouped to the right.
pub(crate) fn rises(before: Linear, kinds: &[bool]) -> Result<Linear, Memory>
    ensures { IfOk result (λ l. sum l ≡ rises 0 kinds.now (sum before)) }
{
    let mut all = before;
    for i in 0..kinds.len() {
        let inner = if_last(i, kinds, NOTHING, up(i + 1));
        let factor = if_last(i, kinds, up(i), up(i + 1));
        all = all.add(true, kinds[i], inner, factor)?;
    }
    Ok(all)
}

/// How often an argument of a chain stands in what is said of it and the next one.
fn next(of_terms: bool, factor: Weight, i: usize, kinds: &[bool]) -> Weight
    ensures { result ≡ next of_terms factor (get_or kinds.now i false) (drop (i + 1) kinds.now) }
{
    if i < kinds.len() && i + 1 < kinds.len() {
        if of_terms || kinds[i] == kinds[i + 1] {
            factor
        } else {
            NOTHING
        }
    } else {
        NOTHING
    }
}

/// One argument of a chain more.
fn link(
    before: Linear,
    of_terms: bool,
    kind: bool,
    constant: Weight,
    factor: Weight,
) -> Result<Linear, Memory>
    ensures { IfOk result (λ l. sum l ≡ linked of_terms kind constant factor (sum before)) }
{
    if of_terms {
        before.add(false, kind, constant, factor)
    } else {
        before.keep(constant, factor)
    }
}

/// A chain: each argument with the one before it and with the next one.
pub(crate) fn chain(
    before: Linear,
    of_terms: bool,
    factor: Weight,
    kinds: &[bool],
) -> Result<Linear, Memory>
    ensures { IfOk result (λ l. sum l ≡ chain of_terms factor nothing kinds.now (sum before)) }
{
    let mut all = before;
    let mut here = NOTHING;
    for i in 0..kinds.len() {
        let inner = if_last(i, kinds, NOTHING, factor);
        let more = next(of_terms, factor, i, kinds);
        all = link(all, of_terms, kinds[i], inner, plus(here, more))?;
        here = more;
    }
    Ok(all)
}

/// Each argument by its kind.
pub(crate) fn by_kind(
    before: Linear,
    formula: Weight,
    term: Weight,
    kinds: &[bool],
) -> Result<Linear, Memory>
    ensures { IfOk result (λ l. sum l ≡ by_kind (λ b. if b then formula else term) kinds.now (sum before)) }
{
    let mut all = before;
    for kind in kinds {
        all = all.keep(NOTHING, if *kind { formula } else { term })?;
    }
    Ok(all)
}

/// One node for several, none for a single one, of what is said of each two.
pub(crate) fn joint(kinds: &[bool]) -> Weight
    ensures { result ≡ joint kinds.now }
{
    if kinds.len() == 2 { NOTHING } else { NODE }
}

/// The place below it.
pub(crate) fn inside(kinds: &[bool]) -> Weight
    ensures { result ≡ inside kinds.now }
{
    if kinds.len() == 2 { UNIT } else { NODE }
}
