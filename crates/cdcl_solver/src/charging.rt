// What a check of a proof in a file charges: for the preparation of the root, and for the lines.

ghost use Rattle.formula.specs.Sizes.{depth};
ghost use Rattle.formula.specs.Tree.{form};
ghost use Rattle.std.specs.Prelude.{◌≢◌, ◌≤◌};

use crate::target::Target;
use base_budget::Purse;
use base_limits::MOST_BUDGET;
use cdcl_steps::Proof;
use clause_checker::{Fault, begin, ends_empty, step};
use clause_marks::Marks;
use formula::{Core, depth, size};
use linear_term::Memory;
use std::alloc::Global;

/// The most steps that the preparation of a root takes.
const MOST_PREPARATION: u64 = 4_000_000;

/// The most levels of a root that is prepared.
const MOST_DEPTH: u32 = 1_000_000;

/// The walks over a root that its check charges before it is prepared: one for each of its levels.
fn walks(root: &Core) -> u64 {
    size(root).saturating_mul(u64::from(depth(root)))
}

/// How many steps the preparation of the root is to take, for a search of this budget; 0 where the root is not prepared.
pub(crate) fn preparation(root: &Core, budget: u64) -> u32
    ensures { result ≢ 0 → depth (form root.now) ≤ 1000000 }
{
    if depth(root) > MOST_DEPTH || walks(root) > MOST_BUDGET / 4 {
        return 0;
    }
    let steps = budget.min(MOST_PREPARATION);
    match u32::try_from(steps) {
        Ok(steps) => steps,
        Err(_) => 0,
    }
}

/// What the check of the proof charges, where the root was prepared with `steps` steps; 0 stands for a root that is not
/// prepared. None where the proof is refused, or its check costs more than any file may say.
pub(crate) fn charges(
    alloc: Global,
    target: Target<'_>,
    prepared: &Core,
    steps: u32,
    proof: &Proof,
) -> Result<Option<u32>, Memory> {
    let mut purse = Purse::new(MOST_BUDGET);
    if steps != 0 {
        let cost = walks(target.root).saturating_add(u64::from(steps));
        if purse.charge(cost).is_err() {
            return Ok(None);
        }
    }
    match check(alloc, &mut purse, prepared, target.values, proof) {
        Ok(()) => Ok(u32::try_from(purse.spent()).ok()),
        Err(Fault::Memory) => Err(Memory),
        Err(_) => Ok(None),
    }
}

/// Checks the lines of the proof, as a check of a file does.
fn check(
    alloc: Global,
    purse: &mut Purse,
    root: &Core,
    values: &[i128],
    proof: &Proof,
) -> Result<(), Fault> {
    let mut marks = Marks::new(alloc);
    let mut state = begin(alloc, purse, root, values, proof.root)?;
    for line in proof.lines.as_slice() {
        step(alloc, purse, &mut marks, &mut state, line)?;
    }
    if ends_empty(state.clauses.as_slice()) {
        Ok(())
    } else {
        Err(Fault::Refused)
    }
}
