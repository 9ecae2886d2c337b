// How much is written: a number of nodes, and how far down they reach. Both are counted up to just above the limits of a script,
// which loses nothing, since sums and products of numbers that are cut off there are right as far as they are not.

ghost use Rattle.std.specs.Prelude.{◌≡◌};
ghost use Rattle.smt_sizes.specs.Weight.{fitted, many, plus, times, up};

use crate::size::Size;

/// One node more than a script may have.
const NODES: u64 = 1_000_001;
/// One more than the levels of a script with one level too many.
const REACH: u64 = 2_002;

/// Nodes, and one more than the level of the lowest of them; no reach where there is nothing. As a factor it stands for this many
/// copies, each this many levels further down.
#[derive(Clone, Copy, Debug, PartialEq, Eq)]
pub struct Weight {
    pub nodes: u64,
    pub reach: u64,
}

/// Nothing at all.
pub const NOTHING: Weight = Weight { nodes: 0, reach: 0 };

/// One copy where it is.
pub const UNIT: Weight = Weight { nodes: 1, reach: 1 };

/// A single node; as a factor one copy one level further down.
pub const NODE: Weight = Weight { nodes: 1, reach: 2 };

/// Two things together.
#[tactic(auto, unfolding(crate::specs::Weight::plus))]
pub(crate) fn plus(a: Weight, b: Weight) -> Weight
    ensures { result ≡ plus a b }
{
    Weight {
        nodes: a.nodes.saturating_add(b.nodes).min(NODES),
        reach: a.reach.max(b.reach),
    }
}

/// How far something reaches that stands further down.
#[tactic(auto, unfolding(crate::specs::Weight::times))]
pub(crate) fn times(a: Weight, b: Weight) -> Weight
    ensures { result ≡ times a b }
{
    let reach = if a.reach == 0 || b.reach == 0 {
        0
    } else {
        (a.reach - 1).saturating_add(b.reach)
    };
    Weight {
        nodes: a.nodes.saturating_mul(b.nodes).min(NODES),
        reach: reach.min(REACH),
    }
}

/// This many copies where they are.
pub(crate) fn many(count: usize) -> Weight
    ensures { result ≡ many count }
{
    let n = count as u64;
    Weight {
        nodes: n.min(NODES),
        reach: n.min(1),
    }
}

/// One copy this many levels further down.
pub(crate) fn up(levels: usize) -> Weight
    ensures { result ≡ up levels }
{
    let n = levels as u64;
    Weight {
        nodes: 1,
        reach: n.min(REACH - 1) + 1,
    }
}

/// Nodes and levels within the limits of a script.
pub(crate) fn fitted(weight: Weight) -> Size
    ensures { result ≡ fitted weight }
{
    if weight.nodes < NODES && weight.reach < REACH {
        Size::Fits(weight.nodes, weight.reach.saturating_sub(1))
    } else {
        Size::Large
    }
}
