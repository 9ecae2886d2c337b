// Whether a body writes a formula or a term.

ghost use Rattle.std.specs.Prelude.{◌≡◌, List, IfOk, length, true};
ghost use Rattle.smt_names.specs.Body.{shape, shapes_of};
ghost use Rattle.smt_sizes.specs.Linear as linear;
ghost use Rattle.smt_sizes.specs.Shapes.{AreForms, AreTerms, bound_weighed, leaf_weighed, shape_weighed, shapes_weighed, weighing_of};
ghost use Rattle.smt_sizes.specs.Weights.{Weighed};

use crate::forms::{Defined, Form};
use crate::operators::operator_kind;
use linear_term::Memory;
use smt_names::{Body, Leaf};
use std::alloc::Global;

/// Whether a leaf is a formula, by the kinds of the bound names.
fn leaf_kind(scope: &[bool], leaf: Leaf) -> bool
    ensures { (ws : List Weighed) → scope.now ≡ linear.kinds ws → result ≡ (leaf_weighed ws leaf).is_formula }
{
    match leaf {
        Leaf::Number(_) => false,
        Leaf::Truth(_) => true,
        Leaf::Constant(_) => false,
        Leaf::Slot(k) => {
            let i = k as usize;
            if i < scope.len() { scope[i] } else { true }
        }
    }
}

/// Whether a form is one of this many arguments, and all of these are terms.
pub(crate) fn serves(form: &Form, kinds: &[bool]) -> bool
    ensures { result ≡ true → (xs : List Weighed) → kinds.now ≡ linear.kinds xs → AreTerms xs × (length xs ≡ length form.now.linear.uses.items) }
{
    if form.linear.uses.as_slice().len() != kinds.len() {
        return false;
    }
    for kind in kinds {
        if *kind {
            return false;
        }
    }
    true
}

/// Whether a body writes a formula, by the kinds of the bound names.
#[cycle(kind)]
pub(crate) fn kind(
    alloc: Global,
    defined: &Defined<'_>,
    scope: &mut Vec<bool>,
    body: &Body,
) -> Result<bool, Memory>
    ensures same { IfOk result (λ _. scope.new.items ≡ scope.old.items) }
    ensures of { IfOk result (λ b. AreForms defined.now.forms.now defined.now.bodies.now → (ws : List Weighed) → scope.old.items ≡ linear.kinds ws → b ≡ (shape_weighed (weighing_of defined.now.bodies.now) ws (shape body.now)).is_formula) }
{
    match body {
        Body::Leaf(leaf) => Ok(leaf_kind(scope.as_slice(), *leaf)),
        Body::Operated(operator, arguments) => {
            let found = all_kinds(alloc, &*defined, &mut *scope, arguments.as_slice())?;
            Ok(operator_kind(*operator, found.as_slice()))
        }
        Body::Function(_, _) => Ok(false),
        Body::Predicate(_, _) => Ok(true),
        Body::Defined(k, arguments) => {
            let found = all_kinds(alloc, &*defined, &mut *scope, arguments.as_slice())?;
            kind_call(alloc, &*defined, found, *k)
        }
        Body::Let(bodies, inner) => kind_let(
            alloc,
            &*defined,
            &mut *scope,
            bodies.as_slice(),
            inner.get(),
        ),
        Body::Quantified(_, _, _) => Ok(true),
    }
}

/// Whether each of several does.
#[cycle(kind)]
pub(crate) fn all_kinds(
    alloc: Global,
    defined: &Defined<'_>,
    scope: &mut Vec<bool>,
    bodies: &[Body],
) -> Result<Vec<bool>, Memory>
    ensures same { IfOk result (λ _. scope.new.items ≡ scope.old.items) }
    ensures of { IfOk result (λ bs. AreForms defined.now.forms.now defined.now.bodies.now → (ws : List Weighed) → scope.old.items ≡ linear.kinds ws
        → bs.items ≡ linear.kinds (shapes_weighed (weighing_of defined.now.bodies.now) ws (shapes_of bodies.now))) }
{
    let mut out = Vec::new(alloc);
    for body in bodies {
        let one = kind(alloc, &*defined, &mut *scope, body)?;
        out.push(one)?;
    }
    Ok(out)
}

/// Whether a defined function writes a formula at arguments of these kinds.
#[cycle(kind)]
fn kind_call(alloc: Global, defined: &Defined<'_>, found: Vec<bool>, k: u32) -> Result<bool, Memory>
    ensures { IfOk result (λ b. AreForms defined.now.forms.now defined.now.bodies.now → (xs : List Weighed) → found.items ≡ linear.kinds xs → b ≡ (weighing_of defined.now.bodies.now k xs).is_formula) }
{
    let definitions = defined.bodies;
    let forms = defined.forms;
    let i = k as usize;
    if i >= definitions.len() {
        return Ok(true);
    }
    if i < forms.len() && serves(&forms[i], found.as_slice()) {
        return Ok(forms[i].is_formula);
    }
    let mut scope = found;
    let before = forms.len().min(i);
    let inner = Defined {
        bodies: &definitions[..i],
        forms: &forms[..before],
    };
    kind(alloc, &inner, &mut scope, &definitions[i])
}

/// Whether a body after bindings does.
#[cycle(kind)]
pub(crate) fn kind_let(
    alloc: Global,
    defined: &Defined<'_>,
    scope: &mut Vec<bool>,
    bodies: &[Body],
    inner: &Body,
) -> Result<bool, Memory>
    ensures same { IfOk result (λ _. scope.new.items ≡ scope.old.items) }
    ensures of { IfOk result (λ b. AreForms defined.now.forms.now defined.now.bodies.now → (ws : List Weighed) → scope.old.items ≡ linear.kinds ws
        → b ≡ (shape_weighed (weighing_of defined.now.bodies.now) (bound_weighed (weighing_of defined.now.bodies.now) ws (shapes_of bodies.now)) (shape inner.now)).is_formula) }
{
    let count = scope.len();
    for body in bodies {
        let one = kind(alloc, &*defined, &mut *scope, body)?;
        scope.push(one)?;
    }
    let one = kind(alloc, &*defined, &mut *scope, &*inner)?;
    scope.truncate(count);
    Ok(one)
}
