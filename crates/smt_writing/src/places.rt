// What a body stands for. A name stands for what is bound to it, a `let` for its inner body, and a call of a defined function for that
// function's body. A loop goes on from one to the next, so chains of them take no stack, however long they are.

ghost use Rattle.std.specs.Prelude.{◌≡◌, ◌+◌, ◌≤◌, IfOk, length, suc};
ghost use Rattle.smt_names.specs.Saying.{leaf_said};
ghost use Rattle.smt_writing.specs.Heights.{leaf_height};
ghost use Rattle.smt_writing.specs.Layers.{AreLayered, heights_at, names_at};
ghost use Rattle.smt_writing.specs.Places.{Reaches, ReachesHead, call_height, call_said, name_height, name_said, place_height, place_said};

use crate::layers::{Layer, Names, layer_of, push};
use linear_term::Memory;
use smt_names::{Body, Leaf};
use smt_terms::Operator;

/// A body and where it stands: how many layers there are up to that of the names in sight, and the defined functions in sight.
#[derive(Clone, Copy)]
pub struct Place<'a> {
    pub layer: usize,
    pub definitions: &'a [Body],
    pub body: &'a Body,
}

/// Several bodies that stand in one place.
#[derive(Clone, Copy)]
pub struct Places<'a> {
    pub layer: usize,
    pub definitions: &'a [Body],
    pub bodies: &'a [Body],
}

/// A body that does not stand for another one, with what it is over.
#[derive(Clone, Copy)]
pub enum Head<'a> {
    Number(i128),
    Truth(bool),
    /// A constant or a variable, by the number of its name.
    Name(u32),
    Operated(Operator, Places<'a>),
    Function(u32, Places<'a>),
    Predicate(u32, Places<'a>),
    /// A quantifier over this many names, true for `forall`. Its names are not yet in sight at the place.
    Quantified(bool, u32, Place<'a>),
}

/// What a body stands for at once: another body, or itself.
#[derive(Clone, Copy)]
pub enum Step<'a> {
    Next(Place<'a>),
    Last(Head<'a>),
}

impl<'a> Place<'a> {
    /// Other bodies in this place.
    fn over(self, bodies: &'a [Body]) -> Places<'a>
        ensures { result ≡ record { layer = self.entry.layer; definitions = self.entry.definitions; bodies = bodies.entry } }
    {
        Places {
            layer: self.layer,
            definitions: self.definitions,
            bodies,
        }
    }
}

/// From a call to the body of the defined function, which sees its arguments and the functions before its own.
fn enter<'a>(layers: &mut Vec<Layer<'a>>, k: u32, arguments: Places<'a>) -> Result<Step<'a>, Memory>
    requires layered { AreLayered layers.old.items }
    requires within { arguments.layer ≤ length layers.old.items }
    ensures { IfOk result (Reaches layers.old.items (call_said layers.old.items k arguments.entry) (suc (call_height layers.old.items k arguments.entry)) layers.new.items) }
{
    let definitions = arguments.definitions;
    let i = k as usize;
    if i >= definitions.len() {
        return Ok(Step::Last(Head::Truth(false)));
    }
    let names = Names::Arguments(arguments.bodies, definitions);
    let layer = push(layers, arguments.layer, names)?;
    Ok(Step::Next(Place {
        layer,
        definitions: &definitions[..i],
        body: &definitions[i],
    }))
}

/// The name that is this many names after the first.
fn name_behind(first: u32, more: u32) -> Result<u32, Memory>
    ensures { IfOk result (λ name. name ≡ first + more) }
{
    first.checked_add(more).ok_or(Memory)
}

/// From a bound name to what it stands for: name number i of a layer.
fn look_up<'a>(layers: &mut Vec<Layer<'a>>, layer: Layer<'a>, i: usize) -> Result<Step<'a>, Memory>
    requires layered { AreLayered layers.old.items }
    requires within { layer.outer ≤ length layers.old.items }
    ensures { IfOk result (Reaches layers.old.items (name_said layers.old.items layer.entry i) (suc (name_height layers.old.items layer.entry i)) layers.new.items) }
{
    match layer.names {
        Names::Variables(count, first) => {
            if i >= count as usize {
                return Ok(Step::Last(Head::Truth(false)));
            }
            let name = name_behind(first, i as u32)?;
            Ok(Step::Last(Head::Name(name)))
        }
        Names::Bound(bodies, definitions) => {
            if i >= bodies.len() {
                return Ok(Step::Last(Head::Truth(false)));
            }
            let before = Names::Bound(&bodies[..i], definitions);
            let layer = push(layers, layer.outer, before)?;
            Ok(Step::Next(Place {
                layer,
                definitions,
                body: &bodies[i],
            }))
        }
        Names::Arguments(arguments, definitions) => {
            if i >= arguments.len() {
                return Ok(Step::Last(Head::Truth(false)));
            }
            Ok(Step::Next(Place {
                layer: layer.outer,
                definitions,
                body: &arguments[i],
            }))
        }
    }
}

/// From a leaf to what it stands for.
fn step_leaf<'a>(layers: &mut Vec<Layer<'a>>, layer: usize, leaf: Leaf) -> Result<Step<'a>, Memory>
    requires layered { AreLayered layers.old.items }
    requires within { layer ≤ length layers.old.items }
    ensures { IfOk result (Reaches layers.old.items (leaf_said (names_at layers.old.items layer) leaf) (suc (leaf_height (heights_at layers.old.items layer) leaf)) layers.new.items) }
{
    match leaf {
        Leaf::Number(n) => Ok(Step::Last(Head::Number(n))),
        Leaf::Truth(b) => Ok(Step::Last(Head::Truth(b))),
        Leaf::Constant(k) => Ok(Step::Last(Head::Name(k))),
        Leaf::Slot(k) => {
            let k = k as usize;
            match layer_of(layers.as_slice(), layer, k) {
                Some(found) => look_up(layers, found, k - found.start),
                None => Ok(Step::Last(Head::Truth(false))),
            }
        }
    }
}

/// From a body to what it stands for at once.
fn step_from<'a>(layers: &mut Vec<Layer<'a>>, place: Place<'a>) -> Result<Step<'a>, Memory>
    requires layered { AreLayered layers.old.items }
    requires within { place.layer ≤ length layers.old.items }
    ensures { IfOk result (Reaches layers.old.items (place_said layers.old.items place.entry) (place_height layers.old.items place.entry) layers.new.items) }
{
    match place.body {
        Body::Leaf(leaf) => step_leaf(layers, place.layer, *leaf),
        Body::Operated(operator, arguments) => {
            let parts = place.over(arguments.as_slice());
            Ok(Step::Last(Head::Operated(*operator, parts)))
        }
        Body::Function(k, arguments) => {
            let parts = place.over(arguments.as_slice());
            Ok(Step::Last(Head::Function(*k, parts)))
        }
        Body::Predicate(k, arguments) => {
            let parts = place.over(arguments.as_slice());
            Ok(Step::Last(Head::Predicate(*k, parts)))
        }
        Body::Defined(k, arguments) => enter(layers, *k, place.over(arguments.as_slice())),
        Body::Let(bodies, inner) => {
            let names = Names::Bound(bodies.as_slice(), place.definitions);
            let layer = push(layers, place.layer, names)?;
            Ok(Step::Next(Place {
                layer,
                definitions: place.definitions,
                body: inner.get(),
            }))
        }
        Body::Quantified(all, count, inner) => {
            let inside = Place {
                layer: place.layer,
                definitions: place.definitions,
                body: inner.get(),
            };
            Ok(Step::Last(Head::Quantified(*all, *count, inside)))
        }
    }
}

/// What the body at a place stands for, at the end of the chain.
pub(crate) fn follow<'a>(layers: &mut Vec<Layer<'a>>, start: Place<'a>) -> Result<Head<'a>, Memory>
    requires layered { AreLayered layers.old.items }
    requires within { start.layer ≤ length layers.old.items }
    ensures { IfOk result (ReachesHead layers.old.items (place_said layers.old.items start.entry) (place_height layers.old.items start.entry) layers.new.items) }
{
    let mut place = start;
    loop {
        match step_from(layers, place)? {
            Step::Next(next) => place = next,
            Step::Last(head) => return Ok(head),
        }
    }
}
