// What has been written so far, by the bound names: names that are bound, and that are no longer.

ghost use Rattle.std.specs.Prelude.{◌≡◌, ◌++◌, ◌∷◌, [], List, IfOk, length};
ghost use Rattle.smt_sizes.specs.Linear.{added_to, sum, value};
ghost use Rattle.smt_sizes.specs.Linear as linear;
ghost use Rattle.smt_sizes.specs.Shapes.{leaf_weighed};
ghost use Rattle.smt_sizes.specs.Weight as weights;
ghost use Rattle.smt_sizes.specs.Weights.{Weighed};
ghost use Rattle.smt_sizes.specs.declared.weight.Weight as declared;
ghost use Rattle.smt_names.specs.declared.body.Leaf.{Leaf};

use crate::linear::Linear;
use crate::weight::{NODE, NOTHING, Weight, plus, times};
use linear_term::Memory;
use smt_names::Leaf;

/// With this much more, whatever the bound names are.
pub(crate) fn and(mut all: Linear, more: Weight) -> Linear
    ensures { sum result ≡ added_to more (sum all) }
{
    all.constant = plus(all.constant, more);
    all
}

/// With a bound name, this many times and so far down.
fn and_slot(mut all: Linear, weight: Weight, k: u32) -> Linear
    ensures count { length result.uses.items ≡ length all.uses.items }
    ensures value { (ws : List Weighed) → length all.uses.items ≡ length ws
        → value (sum result) (linear.weights ws) ≡ weights.plus (value (sum all) (linear.weights ws)) (weights.times weight (leaf_weighed ws (Leaf.Slot k)).weight) }
{
    let i = k as usize;
    if i >= all.uses.as_slice().len() {
        return and(all, times(weight, NODE));
    }
    let more = plus(all.uses[i], weight);
    all.uses[i] = more;
    all
}

/// With a leaf, this many times and so far down.
pub(crate) fn and_leaf(all: Linear, weight: Weight, leaf: Leaf) -> Linear
    ensures count { length result.uses.items ≡ length all.uses.items }
    ensures value { (ws : List Weighed) → length all.uses.items ≡ length ws
        → value (sum result) (linear.weights ws) ≡ weights.plus (value (sum all) (linear.weights ws)) (weights.times weight (leaf_weighed ws leaf).weight) }
{
    match leaf {
        Leaf::Number(_) => and(all, times(weight, NODE)),
        Leaf::Truth(_) => and(all, times(weight, NODE)),
        Leaf::Constant(_) => and(all, times(weight, NODE)),
        Leaf::Slot(k) => and_slot(all, weight, k),
    }
}

/// With one bound name more, which is not used yet.
pub(crate) fn open(mut all: Linear) -> Result<Linear, Memory>
    ensures uses { IfOk result (λ l. l.uses.items ≡ all.uses.items ++ NOTHING ∷ []) }
    ensures constant { IfOk result (λ l. l.constant ≡ all.constant) }
{
    all.uses.push(NOTHING)?;
    Ok(all)
}

/// Without the last bound name, and how often it was used.
pub(crate) fn close(mut all: Linear) -> (Linear, Weight)
    ensures uses { (us : List declared.Weight) (u : declared.Weight) → all.uses.items ≡ us ++ u ∷ [] → (result.0.uses.items ≡ us) × (result.1 ≡ u) }
    ensures constant { result.0.constant ≡ all.constant }
{
    let last = all.uses.pop().unwrap_or(NOTHING);
    (all, last)
}
