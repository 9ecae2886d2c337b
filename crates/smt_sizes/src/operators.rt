// How much an operator writes, by the kinds of its arguments (true for a formula).

ghost use Rattle.std.specs.Prelude.{◌≡◌, IfOk};
ghost use Rattle.smt_sizes.specs.Linear.{sum};
ghost use Rattle.smt_sizes.specs.Operators as operators;
ghost use Rattle.smt_sizes.specs.Shapes as shapes;
ghost use Rattle.smt_sizes.specs.Operators.{alone, chain_sum, choice_sum, each, first_sum, if_alone, itself, joined_sum, left_sum, minus_sum, operator_kind, operator_sum, pairs_sum, right_sum};

use crate::groups::{chain, climbed, each, falls, inside, joint, rises};
use crate::linear::Linear;
use crate::pairs::pairs;
use crate::weight::{NODE, NOTHING, UNIT, Weight, many, plus, times, up};
use linear_term::Memory;
use smt_terms::Operator;
use std::alloc::Global;

/// The kind of the only argument, else another.
fn alone(kinds: &[bool], otherwise: bool) -> bool
    ensures { result ≡ alone kinds.now otherwise }
{
    if kinds.len() == 1 {
        kinds[0]
    } else {
        otherwise
    }
}

/// The kind of the second of three arguments and more, else that of a formula.
fn second(kinds: &[bool]) -> bool
    ensures { result ≡ operators.second kinds.now }
{
    if kinds.len() < 3 { true } else { kinds[1] }
}

/// Whether an operator writes a formula.
pub(crate) fn operator_kind(operator: Operator, kinds: &[bool]) -> bool
    ensures { result ≡ operator_kind operator kinds.now }
{
    match operator {
        Operator::And => alone(kinds, true),
        Operator::Or => alone(kinds, true),
        Operator::Xor => alone(kinds, true),
        Operator::Implies => alone(kinds, true),
        Operator::Choose => second(kinds),
        Operator::Plus => alone(kinds, false),
        Operator::Minus => false,
        Operator::Times => alone(kinds, kinds.is_empty()),
        Operator::Abs => kinds.is_empty(),
        Operator::Truth(_) => true,
        Operator::Not => true,
        Operator::Equal => true,
        Operator::Distinct => true,
        Operator::Compare(_) => true,
    }
}

/// An argument alone.
fn itself(alloc: Global) -> Result<Linear, Memory>
    ensures { IfOk result (λ l. sum l ≡ itself) }
{
    Linear::new(alloc, NOTHING).keep(NOTHING, UNIT)
}

/// Several under one node.
pub(crate) fn joined(alloc: Global, wanted: bool, kinds: &[bool]) -> Result<Linear, Memory>
    ensures { IfOk result (λ l. sum l ≡ joined_sum wanted kinds.now) }
{
    if kinds.len() == 1 {
        return itself(alloc);
    }
    each(Linear::new(alloc, NODE), wanted, NOTHING, NODE, kinds)
}

/// A function or a predicate at its arguments: terms under one node.
pub(crate) fn applied(alloc: Global, kinds: &[bool]) -> Result<Linear, Memory>
    ensures { IfOk result (λ l. sum l ≡ shapes.applied kinds.now) }
{
    each(Linear::new(alloc, NODE), false, NOTHING, NODE, kinds)
}

/// The first under a node.
fn first(alloc: Global, wanted: bool, kinds: &[bool]) -> Result<Linear, Memory>
    ensures { IfOk result (λ l. sum l ≡ first_sum wanted kinds.now) }
{
    match kinds.split_first() {
        None => Ok(Linear::new(alloc, NODE)),
        Some((kind, _)) => Linear::new(alloc, NODE).add(wanted, *kind, NOTHING, NODE),
    }
}

/// Grouped to the left.
fn left(
    alloc: Global,
    wanted: bool,
    step: usize,
    constant: Weight,
    kinds: &[bool],
) -> Result<Linear, Memory>
    ensures { IfOk result (λ l. sum l ≡ left_sum wanted step constant kinds.now) }
{
    let Some((kind, rest)) = kinds.split_first() else {
        return Ok(Linear::new(alloc, NODE));
    };
    if rest.is_empty() {
        return itself(alloc);
    }
    let all = Linear::new(alloc, NOTHING);
    let one = all.add(wanted, *kind, NOTHING, climbed(step, rest.len()))?;
    falls(one, wanted, step, constant, rest)
}

/// Grouped to the right.
fn right(alloc: Global, kinds: &[bool]) -> Result<Linear, Memory>
    ensures { IfOk result (λ l. sum l ≡ right_sum kinds.now) }
{
    if kinds.is_empty() {
        return Ok(Linear::new(alloc, NODE));
    }
    if kinds.len() == 1 {
        return itself(alloc);
    }
    rises(Linear::new(alloc, NOTHING), kinds)
}

/// `-`
fn minus(alloc: Global, kinds: &[bool]) -> Result<Linear, Memory>
    ensures { IfOk result (λ l. sum l ≡ minus_sum kinds.now) }
{
    let Some((kind, rest)) = kinds.split_first() else {
        return Ok(Linear::new(alloc, NODE));
    };
    let one = Linear::new(alloc, NODE).add(false, *kind, NOTHING, NODE)?;
    each(one, false, up(2), up(2), rest)
}

/// `ite` of formulas or of terms.
fn choice(alloc: Global, when: bool, then: bool, other: bool) -> Result<Linear, Memory>
    ensures { IfOk result (λ l. sum l ≡ operators.choice when then other) }
{
    if then {
        let two = times(many(2), up(2));
        let all = Linear::new(alloc, plus(NODE, two)).add(true, when, NOTHING, two)?;
        all.keep(NOTHING, up(2))?.add(true, other, NOTHING, up(2))
    } else {
        let all = Linear::new(alloc, NODE).add(true, when, NOTHING, NODE)?;
        all.keep(NOTHING, NODE)?.add(false, other, NOTHING, NODE)
    }
}

/// `ite`
fn choose(alloc: Global, kinds: &[bool]) -> Result<Linear, Memory>
    ensures { IfOk result (λ l. sum l ≡ choice_sum kinds.now) }
{
    if kinds.len() < 3 {
        return Ok(Linear::new(alloc, NODE));
    }
    choice(alloc, kinds[0], kinds[1], kinds[2])
}

/// A chain.
fn linked(alloc: Global, of_terms: bool, kinds: &[bool]) -> Result<Linear, Memory>
    ensures { IfOk result (λ l. sum l ≡ chain_sum of_terms kinds.now) }
{
    let all = Linear::new(alloc, joint(kinds));
    chain(all, of_terms, times(inside(kinds), NODE), kinds)
}

/// How much an operator writes at arguments of these kinds.
pub(crate) fn operated(alloc: Global, operator: Operator, kinds: &[bool]) -> Result<Linear, Memory>
    ensures { IfOk result (λ l. sum l ≡ operator_sum operator kinds.now) }
{
    match operator {
        Operator::Truth(_) => Ok(Linear::new(alloc, NODE)),
        Operator::Not => first(alloc, true, kinds),
        Operator::And => joined(alloc, true, kinds),
        Operator::Or => joined(alloc, true, kinds),
        Operator::Xor => left(alloc, true, 2, plus(NODE, up(2)), kinds),
        Operator::Implies => right(alloc, kinds),
        Operator::Equal => linked(alloc, false, kinds),
        Operator::Distinct => pairs(alloc, kinds),
        Operator::Choose => choose(alloc, kinds),
        Operator::Compare(_) => linked(alloc, true, kinds),
        Operator::Plus => joined(alloc, false, kinds),
        Operator::Minus => minus(alloc, kinds),
        Operator::Times => left(alloc, false, 1, NODE, kinds),
        Operator::Abs => first(alloc, false, kinds),
    }
}
