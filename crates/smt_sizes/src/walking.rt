// How much a body writes, gone down from the top: with what stands this many times, and so far down, of each part.

ghost use Rattle.std.specs.Prelude.{◌≡◌, ◌+◌, ◌-◌, ◌≤◌, List, IfOk, length, take, get_or, replicate, true};
ghost use Rattle.smt_names.specs.Body.{shape, shapes_of};
ghost use Rattle.smt_sizes.specs.Linear as linear;
ghost use Rattle.smt_sizes.specs.Linear.{as_kind, sum, value};
ghost use Rattle.smt_sizes.specs.Shapes.{AreForms, bound_weighed, raised, shape_weighed, shapes_weighed, weighing_of};
ghost use Rattle.smt_sizes.specs.Shapes as shapes;
ghost use Rattle.smt_sizes.specs.Walking.{AddsWeight};
ghost use Rattle.smt_sizes.specs.Weight as weights;
ghost use Rattle.smt_sizes.specs.Weights.{Weighed};
ghost use Rattle.smt_sizes.specs.declared.weight.Weight as declared;
ghost use Rattle.smt_names.specs.declared.body.Body.{Body};
ghost use Rattle.smt_names.specs.declared.body.Leaf.{Leaf};

use crate::forms::Defined;
use crate::kinds::{all_kinds, kind, kind_let, serves};
use crate::linear::Linear;
use crate::operators::{applied, operated};
use crate::places::{and, and_leaf, close, open};
use crate::weight::{NODE, NOTHING, UNIT, Weight, times};
use linear_term::Memory;
use smt_names::{Body, Leaf};
use sqlite_items::Items;
use std::alloc::Global;

/// Whether there is nothing.
fn is_nothing(weight: Weight) -> bool
    ensures { result ≡ true → weight ≡ NOTHING }
{
    weight.nodes == 0 && weight.reach == 0
}

/// This many copies of an argument.
fn factor(weight: Weight, factors: &Linear, i: usize) -> Weight
    ensures { result ≡ weights.times weight (get_or factors.now.uses.items i NOTHING) }
{
    if i < factors.uses.as_slice().len() {
        times(weight, factors.uses[i])
    } else {
        times(weight, NOTHING)
    }
}

/// Nothing, with this many bound names.
pub(crate) fn blank(alloc: Global, count: usize) -> Result<Linear, Memory>
    ensures uses { IfOk result (λ l. l.uses.items ≡ replicate count NOTHING) }
    ensures constant { IfOk result (λ l. l.constant ≡ NOTHING) }
{
    let mut all = Linear::new(alloc, NOTHING);
    for _ in 0..count {
        all = open(all)?;
    }
    Ok(all)
}

/// What is written with this many nodes over something that stands this many times; and how often and how far down it stands then.
fn raise(all: Linear, weight: Weight, count: u32) -> (Linear, Weight)
    ensures uses { result.0.uses.items ≡ all.uses.items }
    ensures value { (a : declared.Weight) (xs : List declared.Weight)
        → weights.plus (value (sum result.0) xs) (weights.times result.1 a) ≡ weights.plus (value (sum all) xs) (weights.times weight (raised count a)) }
{
    let mut out = all;
    let mut here = weight;
    for i in 0..count {
        here = times(here, NODE);
        out = and(out, here);
    }
    (out, here)
}

/// Names for this many variables.
fn variables(alloc: Global, count: u32) -> Result<Items<Body>, Memory>
    ensures { IfOk result (λ bs. bs ≡ replicate count (Body.Leaf (Leaf.Constant 0))) }
{
    let mut out = Items::new(alloc);
    for _ in 0..count {
        out.push(Body::Leaf(Leaf::Constant(0)))?;
    }
    Ok(out)
}

/// With what a body writes, this many times and so far down.
#[cycle(walk)]
pub(crate) fn walk(
    alloc: Global,
    defined: &Defined<'_>,
    scope: &mut Vec<bool>,
    all: Linear,
    weight: Weight,
    body: &Body,
) -> Result<Linear, Memory>
    ensures same { IfOk result (λ _. scope.new.items ≡ scope.old.items) }
    ensures adds { IfOk result (λ l. AreForms defined.now.forms.now defined.now.bodies.now → AddsWeight scope.old.items all l (λ ws. weights.times weight (shape_weighed (weighing_of defined.now.bodies.now) ws (shape body.now)).weight)) }
{
    match body {
        Body::Leaf(leaf) => Ok(and_leaf(all, weight, *leaf)),
        Body::Operated(operator, arguments) => {
            let bodies = arguments.as_slice();
            let found = all_kinds(alloc, &*defined, &mut *scope, bodies)?;
            let factors = operated(alloc, *operator, found.as_slice())?;
            walk_each(alloc, &*defined, &mut *scope, all, weight, &factors, bodies)
        }
        Body::Function(_, arguments) => {
            let bodies = arguments.as_slice();
            walk_applied(alloc, &*defined, &mut *scope, all, weight, bodies)
        }
        Body::Predicate(_, arguments) => {
            let bodies = arguments.as_slice();
            walk_applied(alloc, &*defined, &mut *scope, all, weight, bodies)
        }
        Body::Defined(k, arguments) => {
            let bodies = arguments.as_slice();
            walk_call(alloc, &*defined, &mut *scope, all, weight, *k, bodies)
        }
        Body::Let(names, inner) => {
            let bodies = names.as_slice();
            let last = inner.get();
            walk_let(alloc, &*defined, &mut *scope, all, weight, bodies, last)
        }
        Body::Quantified(_, count, inner) => {
            let last = inner.get();
            walk_quantified(alloc, &*defined, &mut *scope, all, weight, *count, last)
        }
    }
}

/// With each of several bodies, as often and as far down as its factor says.
#[cycle(walk)]
fn walk_each(
    alloc: Global,
    defined: &Defined<'_>,
    scope: &mut Vec<bool>,
    all: Linear,
    weight: Weight,
    factors: &Linear,
    bodies: &[Body],
) -> Result<Linear, Memory>
    ensures same { IfOk result (λ _. scope.new.items ≡ scope.old.items) }
    ensures adds { IfOk result (λ l. AreForms defined.now.forms.now defined.now.bodies.now → AddsWeight scope.old.items all l
        (λ ws. weights.times weight (value (sum factors.now) (linear.weights (shapes_weighed (weighing_of defined.now.bodies.now) ws (shapes_of bodies.now)))))) }
{
    let mut out = and(all, times(weight, factors.constant));
    for i in 0..bodies.len() {
        let here = factor(weight, &*factors, i);
        if !is_nothing(here) {
            out = walk(alloc, &*defined, &mut *scope, out, here, &bodies[i])?;
        }
    }
    Ok(out)
}

/// With a function or a predicate at its arguments.
#[cycle(walk)]
fn walk_applied(
    alloc: Global,
    defined: &Defined<'_>,
    scope: &mut Vec<bool>,
    all: Linear,
    weight: Weight,
    bodies: &[Body],
) -> Result<Linear, Memory>
    ensures same { IfOk result (λ _. scope.new.items ≡ scope.old.items) }
    ensures adds { IfOk result (λ l. AreForms defined.now.forms.now defined.now.bodies.now → AddsWeight scope.old.items all l (λ ws. let xs = shapes_weighed (weighing_of defined.now.bodies.now) ws (shapes_of bodies.now) in
        weights.times weight (value (shapes.applied (linear.kinds xs)) (linear.weights xs)))) }
{
    let found = all_kinds(alloc, &*defined, &mut *scope, &*bodies)?;
    let factors = applied(alloc, found.as_slice())?;
    walk_each(
        alloc,
        &*defined,
        &mut *scope,
        all,
        weight,
        &factors,
        &*bodies,
    )
}

/// With a call of a defined function. Where its form is not for arguments of these kinds, of which a script without faults has none,
/// its body is gone down.
#[cycle(walk)]
fn walk_call(
    alloc: Global,
    defined: &Defined<'_>,
    scope: &mut Vec<bool>,
    all: Linear,
    weight: Weight,
    k: u32,
    bodies: &[Body],
) -> Result<Linear, Memory>
    ensures same { IfOk result (λ _. scope.new.items ≡ scope.old.items) }
    ensures adds { IfOk result (λ l. AreForms defined.now.forms.now defined.now.bodies.now → AddsWeight scope.old.items all l
        (λ ws. weights.times weight (weighing_of defined.now.bodies.now k (shapes_weighed (weighing_of defined.now.bodies.now) ws (shapes_of bodies.now))).weight)) }
{
    let definitions = defined.bodies;
    let forms = defined.forms;
    let i = k as usize;
    if i >= definitions.len() {
        return Ok(and(all, times(weight, NODE)));
    }
    let mut found = all_kinds(alloc, &*defined, &mut *scope, &*bodies)?;
    if i < forms.len() && serves(&forms[i], found.as_slice()) {
        return walk_each(
            alloc,
            &*defined,
            &mut *scope,
            all,
            weight,
            &forms[i].linear,
            &*bodies,
        );
    }
    let before = forms.len().min(i);
    let none = blank(alloc, found.as_slice().len())?;
    let inner = Defined {
        bodies: &definitions[..i],
        forms: &forms[..before],
    };
    let factors = walk(alloc, &inner, &mut found, none, UNIT, &definitions[i])?;
    walk_each(
        alloc,
        &*defined,
        &mut *scope,
        all,
        weight,
        &factors,
        &*bodies,
    )
}

/// With a body after bindings.
#[cycle(walk)]
fn walk_let(
    alloc: Global,
    defined: &Defined<'_>,
    scope: &mut Vec<bool>,
    all: Linear,
    weight: Weight,
    bodies: &[Body],
    inner: &Body,
) -> Result<Linear, Memory>
    ensures same { IfOk result (λ _. scope.new.items ≡ scope.old.items) }
    ensures adds { IfOk result (λ l. AreForms defined.now.forms.now defined.now.bodies.now → AddsWeight scope.old.items all l
        (λ ws. weights.times weight (shape_weighed (weighing_of defined.now.bodies.now) (bound_weighed (weighing_of defined.now.bodies.now) ws (shapes_of bodies.now)) (shape inner.now)).weight)) }
{
    let opened = open_names(alloc, &*defined, &mut *scope, all, &*bodies)?;
    let inside = walk(alloc, &*defined, &mut *scope, opened, weight, &*inner)?;
    close_names(alloc, &*defined, &mut *scope, inside, &*bodies)
}

/// With a quantifier over this many variables.
#[cycle(walk)]
fn walk_quantified(
    alloc: Global,
    defined: &Defined<'_>,
    scope: &mut Vec<bool>,
    all: Linear,
    weight: Weight,
    count: u32,
    inner: &Body,
) -> Result<Linear, Memory>
    ensures same { IfOk result (λ _. scope.new.items ≡ scope.old.items) }
    ensures adds { IfOk result (λ l. AreForms defined.now.forms.now defined.now.bodies.now → AddsWeight scope.old.items all l
        (λ ws. weights.times weight (raised count (as_kind true (shape_weighed (weighing_of defined.now.bodies.now) (shapes.with_variables count ws) (shape inner.now)))))) }
{
    let names = variables(alloc, count)?;
    let bodies = names.as_slice();
    let formula = kind_let(alloc, &*defined, &mut *scope, bodies, &*inner)?;
    let (out, here) = raise(all, weight, count);
    if !formula {
        return Ok(and(out, times(here, NODE)));
    }
    walk_let(alloc, &*defined, &mut *scope, out, here, bodies, &*inner)
}

/// With the names of bindings, which are not used yet.
fn open_names(
    alloc: Global,
    defined: &Defined<'_>,
    scope: &mut Vec<bool>,
    all: Linear,
    bodies: &[Body],
) -> Result<Linear, Memory>
    ensures scope { IfOk result (λ _. take (length scope.old.items) scope.new.items ≡ scope.old.items) }
    ensures count { IfOk result (λ _. length scope.new.items ≡ length scope.old.items + length bodies.now) }
    ensures kinds { IfOk result (λ _. AreForms defined.now.forms.now defined.now.bodies.now → (ws : List Weighed) → scope.old.items ≡ linear.kinds ws
        → scope.new.items ≡ linear.kinds (bound_weighed (weighing_of defined.now.bodies.now) ws (shapes_of bodies.now))) }
    ensures uses { IfOk result (λ l. length l.uses.items ≡ length all.uses.items + length bodies.now) }
    ensures value { IfOk result (λ l. (ws : List Weighed) → length all.uses.items ≡ length ws
        → value (sum l) (linear.weights (bound_weighed (weighing_of defined.now.bodies.now) ws (shapes_of bodies.now))) ≡ value (sum all) (linear.weights ws)) }
{
    let mut out = all;
    for body in bodies {
        let one = kind(alloc, defined, &mut *scope, body)?;
        scope.push(one)?;
        out = open(out)?;
    }
    Ok(out)
}

/// With what the names of bindings stand for, as often and as far down as they were used, and without the names.
#[cycle(walk)]
fn close_names(
    alloc: Global,
    defined: &Defined<'_>,
    scope: &mut Vec<bool>,
    all: Linear,
    bodies: &[Body],
) -> Result<Linear, Memory>
    ensures scope { IfOk result (λ _. scope.new.items ≡ take (length scope.old.items - length bodies.now) scope.old.items) }
    ensures uses { IfOk result (λ l. AreForms defined.now.forms.now defined.now.bodies.now → length bodies.now ≤ length all.uses.items → length l.uses.items + length bodies.now ≡ length all.uses.items) }
    ensures value { IfOk result (λ l. AreForms defined.now.forms.now defined.now.bodies.now → (ws : List Weighed) → length all.uses.items ≡ length ws + length bodies.now
        → scope.old.items ≡ linear.kinds (bound_weighed (weighing_of defined.now.bodies.now) ws (shapes_of bodies.now))
        → value (sum l) (linear.weights ws) ≡ value (sum all) (linear.weights (bound_weighed (weighing_of defined.now.bodies.now) ws (shapes_of bodies.now)))) }
{
    let base = scope.as_slice().len().saturating_sub(bodies.len());
    let mut out = all;
    let mut i = bodies.len();
    while i > 0 {
        i -= 1;
        scope.truncate(base.saturating_add(i));
        let (rest, here) = close(out);
        out = rest;
        if !is_nothing(here) {
            out = walk(alloc, &*defined, &mut *scope, out, here, &bodies[i])?;
        }
    }
    Ok(out)
}
