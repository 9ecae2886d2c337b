// Whole eliminations: each answers how many steps it charged in all.

ghost use Rattle.formula.specs.Sizes.{depth};
ghost use Rattle.formula.specs.Tree.{form};
ghost use Rattle.std.specs.Prelude.{◌+◌, ◌≤◌, ◌^◌};

use base_budget::{ElimFault, Purse, StepFault};
use formula::{Core, Shared, depth};
use linear_term::Term;
use quant_elim::eliminate;
use sqlite_items::Items;
use std::alloc::Global;

/// least ≤ k·x + l·y ≤ most: the name x, k, the name y, l, least and most.
type Between = (u32, i128, u32, i128, i128, i128);

/// Real numbers are there, and no integers.
const GAP: [Between; 2] = [(0, 11, 1, 13, 27, 45), (0, 7, 1, -9, -10, 4)];

const NESTED: [Between; 3] = [
    (1, 11, 0, -1, 0, 5),
    (2, 7, 1, -1, 0, 3),
    (3, 5, 2, -1, 0, 2),
];

const CHAIN: [Between; 5] = [
    (1, 2, 0, -3, 0, 2),
    (2, 3, 1, -5, 0, 3),
    (3, 5, 2, -7, 0, 5),
    (4, 7, 3, -2, 0, 7),
    (5, 4, 4, -3, 0, 4),
];

/// Names taken out of a chain of inequalities, as many as are asked for, up to the table's end.
#[derive(Clone, Copy, Debug, PartialEq, Eq)]
pub enum Whole {
    /// Two names out of four inequalities whose real shadow has a point and which no integers satisfy.
    Gap,
    /// Three names, one within another, whose coefficients are 11, 7 and 5: each leaves splinters for the next.
    Nested,
    /// Five names out of ten inequalities, with coefficients up to 7.
    Chain,
}

/// Takes this many names out, this many times.
pub fn eliminations(alloc: Global, whole: Whole, names: u16, times: u32) -> Result<u64, StepFault> {
    match whole {
        Whole::Gap => repeat(alloc, &formula(alloc, &GAP, names)?, 0, times),
        Whole::Nested => repeat(alloc, &formula(alloc, &NESTED, names)?, 1, times),
        Whole::Chain => repeat(alloc, &formula(alloc, &CHAIN, names)?, 1, times),
    }
}

/// sign·(k·x + l·y) + constant ≥ 0.
fn bound(alloc: Global, row: Between, sign: i128, constant: i128) -> Result<Core, StepFault> {
    let number = Term::number(alloc, constant.clamp(-100, 100));
    let first = Term::combine(
        1,
        &number,
        row.1.saturating_mul(sign).clamp(-100, 100),
        &Term::name(alloc, row.0),
    )?;
    let both = Term::combine(
        1,
        &first,
        row.3.saturating_mul(sign).clamp(-100, 100),
        &Term::name(alloc, row.2),
    )?;
    Ok(Core::Geq(both))
}

/// Two inequalities of each row.
fn inequalities(alloc: Global, rows: &[Between], most: u16) -> Result<Items<Core>, StepFault> {
    let mut members = Items::new(alloc);
    for row in rows.iter().take(usize::from(most)) {
        members.push(bound(alloc, *row, 1, row.4.saturating_neg())?)?;
        members.push(bound(alloc, *row, -1, row.5)?)?;
    }
    Ok(members)
}

/// The first rows, with as many of the last names bound.
fn formula(alloc: Global, rows: &[Between], names: u16) -> Result<Core, StepFault> {
    let mut out = Core::And(inequalities(alloc, rows, names)?);
    for _ in 0..names {
        out = Core::Exists(Shared::new(alloc, out)?);
    }
    Ok(out)
}

/// Takes all quantifiers out of f, with a new purse each time.
fn repeat(alloc: Global, f: &Core, names: u32, times: u32) -> Result<u64, StepFault> {
    let mut charged: u64 = 0;
    let levels = depth(f);
    if names > 1 || levels > 100 {
        return Ok(charged);
    }
    for _ in 0..times {
        charged = charged.saturating_add(charge(alloc, f, names)?);
    }
    Ok(charged)
}

/// The charge of one elimination.
fn charge(alloc: Global, f: &Core, names: u32) -> Result<u64, StepFault>
    requires { names + depth (form f.now) ≤ 2 ^ 32 }
{
    let mut purse = Purse::new(4_000_000_000);
    match eliminate(alloc, f, names, &mut purse) {
        Ok(_answer) => Ok(purse.spent()),
        Err(ElimFault::Steps(_log)) => Err(StepFault::Steps),
        Err(ElimFault::Overflow(_log, place)) => Err(StepFault::Overflow(place)),
        Err(ElimFault::Memory) => Err(StepFault::Memory),
    }
}
