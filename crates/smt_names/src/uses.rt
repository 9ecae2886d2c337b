// Which bound names a body uses, and arguments of calls without those that are not used.

ghost use Rattle.std.specs.Prelude.{◌≡◌, ℕ, List, IfOk, get_or, true, false};
ghost use Rattle.smt_terms.specs.Translation.{Standing};
ghost use Rattle.smt_names.specs.Body.{Shape, shape, shapes_of};
ghost use Rattle.smt_names.specs.Saying.{Calls, shape_said, shapes_said};
ghost use Rattle.smt_names.specs.Uses.{AreMarked, is_name, occurs, occurs_in};

use crate::body::{Body, Leaf};
use linear_term::Memory;
use sqlite_items::Items;
use std::alloc::Global;

/// Marks a leaf, where it is a bound name among these.
fn mark_leaf(marks: &mut [bool], leaf: Leaf)
    ensures { (i : ℕ) → get_or marks.new i true ≡ false → (get_or marks.old i true ≡ false) × (is_name i leaf ≡ false) }
{
    if let Leaf::Slot(k) = leaf
        && (k as usize) < marks.len()
    {
        marks[k as usize] = true;
    }
}

/// Marks the bound names that a body uses.
#[cycle(mark)]
fn mark(marks: &mut [bool], body: &Body)
    ensures { (i : ℕ) → get_or marks.new i true ≡ false → (get_or marks.old i true ≡ false) × (occurs i (shape body.now) ≡ false) }
{
    match body {
        Body::Leaf(leaf) => mark_leaf(&mut *marks, *leaf),
        Body::Operated(_, bodies) => mark_all(&mut *marks, bodies.as_slice()),
        Body::Function(_, bodies) => mark_all(&mut *marks, bodies.as_slice()),
        Body::Predicate(_, bodies) => mark_all(&mut *marks, bodies.as_slice()),
        Body::Defined(_, bodies) => mark_all(&mut *marks, bodies.as_slice()),
        Body::Let(bodies, inner) => {
            mark_all(&mut *marks, bodies.as_slice());
            mark(&mut *marks, inner.get())
        }
        Body::Quantified(_, _, inner) => mark(&mut *marks, inner.get()),
    }
}

/// Marks those that each of several bodies uses.
#[cycle(mark)]
fn mark_all(marks: &mut [bool], bodies: &[Body])
    ensures { (i : ℕ) → get_or marks.new i true ≡ false → (get_or marks.old i true ≡ false) × (occurs_in i (shapes_of bodies.now) ≡ false) }
{
    for body in bodies {
        mark(&mut *marks, &*body);
    }
}

/// Which of the first bound names a body uses.
pub(crate) fn used_slots(alloc: Global, count: u32, body: &Body) -> Result<Items<bool>, Memory>
    ensures { IfOk result (λ us. AreMarked us (shape body.now)) }
{
    let mut marks = Vec::new(alloc);
    for _ in 0..count {
        marks.push(false)?;
    }
    mark(marks.as_mut_slice(), body);
    Ok(Items::from_vec(marks))
}

/// Arguments, of which the one of this number is 0 if it is not used.
fn trim(mut arguments: Items<Body>, used: &[bool], i: usize) -> Items<Body>
    ensures { (t : Shape) → AreMarked used.now t → (C D : Calls) (e : List Standing) (n : ℕ)
        → shape_said C (shapes_said D e (shapes_of result)) t n ≡ shape_said C (shapes_said D e (shapes_of arguments)) t n }
{
    if i >= used.len() || i >= arguments.len() {
        return arguments;
    }
    if used[i] {
        return arguments;
    }
    arguments.set(i, Body::Leaf(Leaf::Number(0)));
    arguments
}

/// Arguments, of which those are 0 that are not used.
pub(crate) fn trimmed(used: &[bool], arguments: Items<Body>) -> Items<Body>
    ensures { (t : Shape) → AreMarked used.now t → (C D : Calls) (e : List Standing) (n : ℕ)
        → shape_said C (shapes_said D e (shapes_of result)) t n ≡ shape_said C (shapes_said D e (shapes_of arguments)) t n }
{
    let mut out = arguments;
    for i in 0..used.len() {
        out = trim(out, used, i);
    }
    out
}
