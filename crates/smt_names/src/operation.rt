// Operators and defined functions at their arguments, as short as they can be said.

ghost use Rattle.std.specs.Option.{IfSome};
ghost use Rattle.std.specs.Prelude.{◌≡◌, ℕ, List, Some, IfOk, get_or};
ghost use Rattle.smt_terms.specs.Translation.{Standing, at_depth, operated};
ghost use Rattle.smt_names.specs.Body.{shape, shapes_of};
ghost use Rattle.smt_names.specs.Joining.{joins};
ghost use Rattle.smt_names.specs.Uses.{AreUses};
ghost use Rattle.smt_names.specs.Symbols.{looked_up, meant_as};
ghost use Rattle.smt_names.specs.declared.symbols.Meant.{Meant};
ghost use Rattle.smt_names.specs.Saying.{Calls, calls_of, leaf_said, nothing, shape_said, shapes_said};

use crate::body::{Body, Leaf};
use crate::symbols::{Meant, Symbols};
use crate::uses::trimmed;
use linear_term::Memory;
use smt_terms::Operator;
use sqlite_items::Items;
use std::alloc::Global;

/// Whether an operator joins several, so that it is, at one argument, that argument.
fn joins(operator: Operator) -> bool
    ensures { result ≡ joins operator }
{
    match operator {
        Operator::And
        | Operator::Or
        | Operator::Xor
        | Operator::Implies
        | Operator::Plus
        | Operator::Times => true,
        Operator::Truth(_)
        | Operator::Not
        | Operator::Equal
        | Operator::Distinct
        | Operator::Choose
        | Operator::Compare(_)
        | Operator::Minus
        | Operator::Abs => false,
    }
}

/// An operator at its arguments.
pub(crate) fn operation(operator: Operator, mut arguments: Items<Body>) -> Body
    ensures { (D : Calls) (e : List Standing) (n : ℕ) → shape_said D e (shape result) n ≡ operated operator (at_depth n (shapes_said D e (shapes_of arguments))) }
{
    if let Operator::Truth(b) = operator {
        return Body::Leaf(Leaf::Truth(b));
    }
    if joins(operator)
        && arguments.len() == 1
        && let Some(only) = arguments.pop()
    {
        return only;
    }
    Body::Operated(operator, arguments)
}

/// A leaf of the body of a defined function at these arguments, where it is a leaf.
fn placed(leaf: Leaf, arguments: &[Body]) -> Option<Leaf>
    ensures { IfSome result (λ x. (D : Calls) (e : List Standing) → leaf_said e x ≡ leaf_said (shapes_said D e (shapes_of arguments.now)) leaf) }
{
    let Leaf::Slot(i) = leaf else {
        return Some(leaf)
    };
    if (i as usize) < arguments.len() {
        match &arguments[i as usize] {
            Body::Leaf(argument) => Some(*argument),
            _ => None,
        }
    } else {
        Some(Leaf::Truth(false))
    }
}

/// The arguments of a call in the body of a defined function at these arguments, where all of them are leaves.
fn all_placed(
    alloc: Global,
    inner: &[Body],
    arguments: &[Body],
) -> Result<Option<Items<Body>>, Memory>
    ensures { IfOk result (λ r. IfSome r (λ bs. (C D : Calls) (e : List Standing)
        → shapes_said D e (shapes_of bs) ≡ shapes_said C (shapes_said D e (shapes_of arguments.now)) (shapes_of inner.now))) }
{
    let mut out = Items::new(alloc);
    for body in inner {
        let Body::Leaf(leaf) = body else {
            return Ok(None)
        };
        let Some(argument) = placed(*leaf, arguments) else {
            return Ok(None)
        };
        out.push(Body::Leaf(argument))?;
    }
    Ok(Some(out))
}

/// The argument of this number.
fn picked(mut arguments: Items<Body>, i: u32) -> Body
    ensures { (D : Calls) (e : List Standing) (n : ℕ) → shape_said D e (shape result) n ≡ get_or (shapes_said D e (shapes_of arguments)) i nothing n }
{
    if (i as usize) < arguments.len() {
        arguments.remove(i as usize)
    } else {
        Body::Leaf(Leaf::Truth(false))
    }
}

/// What the body of a defined function says at these arguments, where it is a leaf.
#[tactic(auto, using(crate::proofs::Saying::leaf_alone))]
fn at_arguments(leaf: Leaf, arguments: Items<Body>) -> Body
    ensures { (D : Calls) (e : List Standing) (n : ℕ) → shape_said D e (shape result) n ≡ leaf_said (shapes_said D e (shapes_of arguments)) leaf n }
{
    match leaf {
        Leaf::Slot(i) => picked(arguments, i),
        Leaf::Number(_) | Leaf::Truth(_) | Leaf::Constant(_) => Body::Leaf(leaf),
    }
}

/// The defined function of this number, of those of these bodies, at its arguments. Where its body is a leaf, that leaf; where it is
/// itself a call with leaves for arguments, and leaves stand for them here too, that call.
fn short_call(
    alloc: Global,
    definitions: &[Body],
    k: u32,
    arguments: Items<Body>,
) -> Result<Body, Memory>
    ensures { IfOk result (λ b. (e : List Standing) (n : ℕ)
        → shape_said (calls_of definitions.now) e (shape b) n ≡ calls_of definitions.now k (shapes_said (calls_of definitions.now) e (shapes_of arguments)) n) }
{
    if (k as usize) < definitions.len() {
        match &definitions[k as usize] {
            Body::Leaf(leaf) => return Ok(at_arguments(*leaf, arguments)),
            Body::Defined(j, inner) => {
                if *j < k
                    && let Some(all) = all_placed(alloc, inner.as_slice(), arguments.as_slice())?
                {
                    return Ok(Body::Defined(*j, all));
                }
            }
            _ => {}
        }
    }
    Ok(Body::Defined(k, arguments))
}

/// The defined function of this number at its arguments, of which those are 0 that its body does not use.
pub(crate) fn call(
    alloc: Global,
    used: &[Items<bool>],
    definitions: &[Body],
    k: u32,
    arguments: Items<Body>,
) -> Result<Body, Memory>
    ensures { IfOk result (λ b. AreUses used.now definitions.now → (e : List Standing) (n : ℕ)
        → shape_said (calls_of definitions.now) e (shape b) n ≡ calls_of definitions.now k (shapes_said (calls_of definitions.now) e (shapes_of arguments)) n) }
{
    if (k as usize) < used.len() && (k as usize) < definitions.len() {
        let trimmed = trimmed(used[k as usize].as_slice(), arguments);
        return short_call(alloc, definitions, k, trimmed);
    }
    short_call(alloc, definitions, k, arguments)
}

/// A symbol of a script at its arguments.
pub(crate) fn symbol(
    alloc: Global,
    symbols: &Symbols,
    definitions: &[Body],
    text: &[u8],
    arguments: Items<Body>,
) -> Result<Body, Memory>
    ensures { IfOk result (λ b. AreUses symbols.now.used definitions.now → (e : List Standing) (n : ℕ) → shape_said (calls_of definitions.now) e (shape b) n
        ≡ meant_as (calls_of definitions.now) (looked_up symbols.now text.now) (shapes_said (calls_of definitions.now) e (shapes_of arguments)) n) }
{
    match symbols.get(text) {
        None => Ok(Body::Leaf(Leaf::Truth(false))),
        Some(Meant::Constant(k)) => Ok(Body::Leaf(Leaf::Constant(k))),
        Some(Meant::Function(k)) => Ok(Body::Function(k, arguments)),
        Some(Meant::Predicate(k)) => Ok(Body::Predicate(k, arguments)),
        Some(Meant::Defined(k, arity)) => {
            defined(
                alloc,
                symbols.used.as_slice(),
                definitions,
                k,
                arity,
                arguments,
            )
        }
    }
}

/// A defined function at arguments that may be of another number than its own.
fn defined(
    alloc: Global,
    used: &[Items<bool>],
    definitions: &[Body],
    k: u32,
    arity: u32,
    arguments: Items<Body>,
) -> Result<Body, Memory>
    ensures { IfOk result (λ b. AreUses used.now definitions.now → (e : List Standing) (n : ℕ) → shape_said (calls_of definitions.now) e (shape b) n
        ≡ meant_as (calls_of definitions.now) (Some (Meant.Defined k arity)) (shapes_said (calls_of definitions.now) e (shapes_of arguments)) n) }
{
    if arguments.len() == arity as usize {
        call(alloc, used, definitions, k, arguments)
    } else {
        Ok(Body::Leaf(Leaf::Truth(false)))
    }
}
