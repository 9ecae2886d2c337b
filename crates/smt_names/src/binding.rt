// What is said after names that `let` binds, as short as it can be said.

ghost use Rattle.std.specs.Prelude.{◌≡◌, ◌+◌, ◌++◌, ℕ, List, IfOk, length, true};
ghost use Rattle.smt_terms.specs.Translation.{Standing};
ghost use Rattle.smt_names.specs.Body.{shape, shapes_of};
ghost use Rattle.smt_names.specs.Saying.{Calls, bound_said, leaf_said, shape_said, shapes_said};
ghost use Rattle.smt_names.specs.Scopes.{IsLeafWithin};
ghost use Rattle.smt_names.specs.Slots.{is_slot};

use crate::body::{Body, Leaf};
use linear_term::Memory;
use sqlite_items::{Boxed, Items};
use std::alloc::Global;

/// A body after bindings; where it has bindings itself, they join these.
fn behind(alloc: Global, mut kept: Items<Body>, body: Body) -> Result<Body, Memory>
    ensures { IfOk result (λ b. (D : Calls) (e : List Standing) (n : ℕ)
        → shape_said D e (shape b) n ≡ shape_said D (bound_said D e (shapes_of kept)) (shape body) n) }
{
    match body {
        Body::Let(more, inner) => {
            kept.append(more)?;
            Ok(Body::Let(kept, inner))
        }
        other => {
            if kept.is_empty() {
                return Ok(other);
            }
            Ok(Body::Let(kept, Boxed::new(alloc, other)?))
        }
    }
}

/// Whether a leaf is the bound name of the number `count + more`.
fn is_slot(leaf: Leaf, count: u32, more: usize) -> bool
    ensures { result ≡ is_slot leaf (count + more) }
{
    match leaf {
        Leaf::Slot(k) => k >= count && (k - count) as usize == more,
        Leaf::Number(_) | Leaf::Truth(_) | Leaf::Constant(_) => false,
    }
}

/// What is not used.
fn forget(_body: Body) {}

/// A leaf after bindings: where it is one of their names, what that one is bound to, after those before it.
fn leaf_behind(alloc: Global, count: u32, mut kept: Items<Body>, leaf: Leaf) -> Result<Body, Memory>
    ensures { IfOk result (λ b. (D : Calls) (e : List Standing) (n : ℕ) → length e ≡ count
        → shape_said D e (shape b) n ≡ leaf_said (bound_said D e (shapes_of kept)) leaf n) }
{
    while let Some(last) = kept.pop() {
        if is_slot(leaf, count, kept.len()) {
            return behind(alloc, kept, last);
        }
        forget(last);
    }
    Ok(Body::Leaf(leaf))
}

/// Whether a leaf is none of the bound names from this number on.
pub(crate) fn is_within(leaf: Leaf, count: u32) -> bool
    ensures { result ≡ true → IsLeafWithin count leaf }
{
    match leaf {
        Leaf::Slot(k) => k < count,
        Leaf::Number(_) | Leaf::Truth(_) | Leaf::Constant(_) => true,
    }
}

/// Whether bodies are leaves that need no bound name from this number on.
fn are_within(bodies: &[Body], count: u32) -> bool
    ensures { result ≡ true → (D : Calls) (e behind : List Standing) → length e ≡ count
        → shapes_said D (e ++ behind) (shapes_of bodies.now) ≡ shapes_said D e (shapes_of bodies.now) }
{
    for body in bodies {
        let Body::Leaf(leaf) = body else { return false };
        if !is_within(*leaf, count) {
            return false;
        }
    }
    true
}

/// A body after bindings, where this many names are bound around them.
pub(crate) fn bind(alloc: Global, count: u32, kept: Items<Body>, body: Body) -> Result<Body, Memory>
    ensures { IfOk result (λ b. (D : Calls) (e : List Standing) (n : ℕ) → length e ≡ count
        → shape_said D e (shape b) n ≡ shape_said D (bound_said D e (shapes_of kept)) (shape body) n) }
{
    match body {
        Body::Leaf(leaf) => leaf_behind(alloc, count, kept, leaf),
        Body::Defined(k, arguments) => {
            if are_within(arguments.as_slice(), count) {
                return Ok(Body::Defined(k, arguments));
            }
            behind(alloc, kept, Body::Defined(k, arguments))
        }
        other => behind(alloc, kept, other),
    }
}
