// Bodies written out: a bound name is replaced by what it stands for, and a defined function by its body at its arguments.
// Nothing is copied: a name is looked up where it is used, and its body written there. `write` calls itself below an operator, a
// function, a predicate or a quantifier alone, so it goes as deep as what it writes does.

ghost use Rattle.std.specs.Prelude.{◌≡◌, ◌≤◌, [], IfOk, length, map};
ghost use Rattle.form_typed.specs.Formula.{formula};
ghost use Rattle.smt_terms.specs.Translation.{at_depth, formula_in};
ghost use Rattle.smt_names.specs.Body.{shape};
ghost use Rattle.smt_names.specs.Saying.{calls_of, quantified_by, quantified_over, shape_said};
ghost use Rattle.smt_writing.specs.Layers.{AreLayered, Extends};
ghost use Rattle.smt_writing.specs.Places.{IsHeadWithin, head_said, inside_said, place_said, places_said};
ghost use Rattle.smt_writing.specs.Written.{written};

use crate::combine::terms;
use crate::layers::{Layer, Names, push};
use crate::operators::operate;
use crate::places::{Head, Place, Places, follow};
use crate::written::{Written, into_formula};
use form_typed::{Sort, Typed, TypedTerm};
use linear_term::Memory;
use smt_names::Body;
use sqlite_items::Boxed;
use std::alloc::Global;

/// A quantifier over a formula.
fn quantifier(alloc: Global, all: bool, body: Typed) -> Result<Typed, Memory>
    ensures { IfOk result (λ f. formula f ≡ quantified_by all (formula body)) }
{
    let inside = Boxed::new(alloc, body)?;
    if all {
        Ok(Typed::Forall(Sort::Int, inside))
    } else {
        Ok(Typed::Exists(Sort::Int, inside))
    }
}

/// This many of them.
fn quantify(alloc: Global, all: bool, count: u32, body: Typed) -> Result<Typed, Memory>
    ensures { IfOk result (λ f. formula f ≡ quantified_over all count (formula body)) }
{
    let mut whole = body;
    for _ in 0..count {
        whole = quantifier(alloc, all, whole)?;
    }
    Ok(whole)
}

/// What the body at a place becomes where this many names are around. The layers are left as they were.
#[cycle(write)]
fn write<'a>(
    alloc: Global,
    layers: &mut Vec<Layer<'a>>,
    depth: u32,
    place: Place<'a>,
) -> Result<Written, Memory>
    requires layered { AreLayered layers.old.items }
    requires within { place.layer ≤ length layers.old.items }
    ensures said { IfOk result (λ w. written w ≡ place_said layers.old.items place.entry depth) }
    ensures kept { IfOk result (λ w. layers.new.items ≡ layers.old.items) }
{
    let open = layers.len();
    let head = follow(&mut *layers, place)?;
    let written = write_head(alloc, &mut *layers, depth, head)?;
    layers.truncate(open);
    Ok(written)
}

/// What a body becomes that does not stand for another one.
#[cycle(write)]
fn write_head<'a>(
    alloc: Global,
    layers: &mut Vec<Layer<'a>>,
    depth: u32,
    head: Head<'a>,
) -> Result<Written, Memory>
    requires layered { AreLayered layers.old.items }
    requires within { IsHeadWithin layers.old.items head }
    ensures said { IfOk result (λ w. written w ≡ head_said layers.old.items head.entry depth) }
    ensures extends { IfOk result (λ w. Extends layers.old.items layers.new.items) }
{
    match head {
        Head::Number(n) => Ok(Written::Term(TypedTerm::Number(n))),
        Head::Truth(b) => Ok(Written::Formula(Typed::Truth(b))),
        Head::Name(k) => Ok(Written::Term(TypedTerm::Name(k))),
        Head::Operated(operator, arguments) => {
            let written = write_all(alloc, &mut *layers, depth, arguments)?;
            operate(alloc, operator, written)
        }
        Head::Function(k, arguments) => {
            let written = write_all(alloc, &mut *layers, depth, arguments)?;
            Ok(Written::Term(TypedTerm::Apply(k, terms(alloc, written)?)))
        }
        Head::Predicate(k, arguments) => {
            let written = write_all(alloc, &mut *layers, depth, arguments)?;
            Ok(Written::Formula(Typed::Pred(k, terms(alloc, written)?)))
        }
        Head::Quantified(all, count, inside) => {
            let body = write_inside(alloc, &mut *layers, depth, count, inside)?;
            Ok(Written::Formula(quantify(alloc, all, count, body)?))
        }
    }
}

/// What the body at a place becomes inside a quantifier over this many names.
#[cycle(write)]
fn write_inside<'a>(
    alloc: Global,
    layers: &mut Vec<Layer<'a>>,
    depth: u32,
    count: u32,
    place: Place<'a>,
) -> Result<Typed, Memory>
    requires layered { AreLayered layers.old.items }
    requires within { place.layer ≤ length layers.old.items }
    ensures said { IfOk result (λ f. formula f ≡ inside_said count layers.old.items place.entry depth) }
    ensures extends { IfOk result (λ f. Extends layers.old.items layers.new.items) }
{
    let deeper = depth.checked_add(count).ok_or(Memory)?;
    let layer = push(&mut *layers, place.layer, Names::Variables(count, depth))?;
    let inside = Place {
        layer,
        definitions: place.definitions,
        body: place.body,
    };
    Ok(into_formula(write(alloc, &mut *layers, deeper, inside)?))
}

/// What each of several bodies in one place becomes. The layers are left as they were.
#[cycle(write)]
fn write_all<'a>(
    alloc: Global,
    layers: &mut Vec<Layer<'a>>,
    depth: u32,
    places: Places<'a>,
) -> Result<Vec<Written>, Memory>
    requires layered { AreLayered layers.old.items }
    requires within { places.layer ≤ length layers.old.items }
    ensures said { IfOk result (λ ws. map written ws.items ≡ at_depth depth (places_said layers.old.items places.entry)) }
    ensures kept { IfOk result (λ ws. layers.new.items ≡ layers.old.items) }
{
    let mut out = Vec::new(alloc);
    for body in places.bodies {
        let place = Place {
            layer: places.layer,
            definitions: places.definitions,
            body,
        };
        out.push(write(alloc, &mut *layers, depth, place)?)?;
    }
    Ok(out)
}

/// The formula that an asserted term becomes, of which this body is what it says over these defined functions, where this many
/// constants are declared. Where more than 2^32 names would be around a part of it, it has no room in memory.
pub fn write_formula(
    alloc: Global,
    definitions: &[Body],
    constants: u32,
    body: &Body,
) -> Result<Typed, Memory>
    ensures { IfOk result (λ f. formula f ≡ formula_in (shape_said (calls_of definitions.now) [] (shape body.now) constants)) }
{
    let mut layers = Vec::new(alloc);
    let place = Place {
        layer: 0,
        definitions,
        body,
    };
    Ok(into_formula(write(alloc, &mut layers, constants, place)?))
}
