// What is said of each two arguments that are to be different.

ghost use Rattle.std.specs.Prelude.{◌≡◌, IfOk, if◌then◌else◌};
ghost use Rattle.smt_sizes.specs.Weight as weight;
ghost use Rattle.smt_sizes.specs.Linear.{sum};
ghost use Rattle.smt_sizes.specs.Operators.{in_pairs, number_of, of_pairs, pairs_sum};

use crate::groups::{by_kind, inside, joint};
use crate::linear::Linear;
use crate::weight::{NODE, NOTHING, Weight, many, plus, times, up};
use linear_term::Memory;
use std::alloc::Global;

/// How many are of a kind.
fn number_of(wanted: bool, kinds: &[bool]) -> usize
    ensures { result ≡ number_of wanted kinds.now }
{
    let mut count = 0;
    for kind in kinds {
        if *kind == wanted {
            count += 1;
        }
    }
    count
}

/// How often one of a kind stands there, and how far down: once with each other one of its kind.
fn in_pairs(below: Weight, kinds: &[bool], kind: bool) -> Weight
    ensures { result ≡ in_pairs below kinds.now kind }
{
    let others = number_of(kind, kinds).saturating_sub(1);
    times(many(others), times(below, if kind { up(2) } else { NODE }))
}

/// The second nodes of one and those after it.
fn seconds(below: Weight, kind: bool, formulas: usize) -> Weight
    ensures { result ≡ (if kind then weight.times (weight.many formulas) (weight.times below (weight.up 2)) else NOTHING) }
{
    if kind {
        times(many(formulas), times(below, up(2)))
    } else {
        NOTHING
    }
}

/// The nodes of what is said of each two.
fn of_pairs(below: Weight, kinds: &[bool]) -> Weight
    ensures { result ≡ of_pairs below kinds.now }
{
    let mut all = NOTHING;
    let mut formulas = 0;
    let mut i = kinds.len();
    while i > 0 {
        let behind = kinds.len() - i;
        i -= 1;
        let firsts = times(many(behind), times(below, NODE));
        all = plus(plus(firsts, seconds(below, kinds[i], formulas)), all);
        if kinds[i] {
            formulas += 1;
        }
    }
    all
}

/// `distinct`
pub(crate) fn pairs(alloc: Global, kinds: &[bool]) -> Result<Linear, Memory>
    ensures { IfOk result (λ l. sum l ≡ pairs_sum kinds.now) }
{
    let below = inside(kinds);
    let all = Linear::new(alloc, plus(joint(kinds), of_pairs(below, kinds)));
    by_kind(
        all,
        in_pairs(below, kinds, true),
        in_pairs(below, kinds, false),
        kinds,
    )
}
