// Formulas and terms over one or two others.

ghost use Rattle.std.specs.Prelude.{◌≡◌, ◌∷◌, [], IfOk};
ghost use Rattle.form_typed.specs.Formula.{absolute, choice, expression, formula, iff, implies, minus, negation, product};

use form_typed::{Typed, TypedTerm};
use linear_term::Memory;
use sqlite_items::{Boxed, Items};
use std::alloc::Global;

/// The formula is false.
pub(crate) fn not(alloc: Global, of: Typed) -> Result<Typed, Memory>
    ensures { IfOk result (λ f. formula f ≡ negation (formula of)) }
{
    Ok(Typed::Not(Boxed::new(alloc, of)?))
}

/// Each of the two by itself on the heap.
fn boxed(alloc: Global, left: Typed, right: Typed) -> Result<(Boxed<Typed>, Boxed<Typed>), Memory>
    ensures { IfOk result (λ both. (both.0 ≡ left) × (both.1 ≡ right)) }
{
    let left = Boxed::new(alloc, left)?;
    Ok((left, Boxed::new(alloc, right)?))
}

/// A copy of the formula by itself on the heap.
pub(crate) fn boxed_copy(alloc: Global, of: &Typed) -> Result<Boxed<Typed>, Memory>
    ensures { IfOk result (λ f. f ≡ of.now) }
{
    Ok(Boxed::new(alloc, of.copy(alloc)?)?)
}

/// A list of the two.
pub(crate) fn two(alloc: Global, left: Typed, right: Typed) -> Result<Items<Typed>, Memory>
    ensures { IfOk result (λ all. all ≡ left ∷ right ∷ []) }
{
    let mut all = Items::new(alloc);
    all.push(left)?;
    all.push(right)?;
    Ok(all)
}

/// One implies the other.
pub(crate) fn implication(alloc: Global, left: Typed, right: Typed) -> Result<Typed, Memory>
    ensures { IfOk result (λ f. formula f ≡ implies (formula left) (formula right)) }
{
    let (left, right) = boxed(alloc, left, right)?;
    Ok(Typed::Implies(left, right))
}

/// Both are true or both are false.
pub(crate) fn equivalence(alloc: Global, left: Typed, right: Typed) -> Result<Typed, Memory>
    ensures { IfOk result (λ f. formula f ≡ iff (formula left) (formula right)) }
{
    let (left, right) = boxed(alloc, left, right)?;
    Ok(Typed::Iff(left, right))
}

/// One is true and the other is false.
pub(crate) fn difference(alloc: Global, left: Typed, right: Typed) -> Result<Typed, Memory>
    ensures { IfOk result (λ f. formula f ≡ negation (iff (formula left) (formula right))) }
{
    not(alloc, equivalence(alloc, left, right)?)
}

/// The negative.
pub(crate) fn negative(alloc: Global, of: TypedTerm) -> Result<TypedTerm, Memory>
    ensures { IfOk result (λ t. expression t ≡ minus (expression of)) }
{
    Ok(TypedTerm::Minus(Boxed::new(alloc, of)?))
}

/// The absolute value.
pub(crate) fn magnitude(alloc: Global, of: TypedTerm) -> Result<TypedTerm, Memory>
    ensures { IfOk result (λ t. expression t ≡ absolute (expression of)) }
{
    Ok(TypedTerm::Abs(Boxed::new(alloc, of)?))
}

/// The product of two.
pub(crate) fn times(alloc: Global, left: TypedTerm, right: TypedTerm) -> Result<TypedTerm, Memory>
    ensures { IfOk result (λ t. expression t ≡ product (expression left) (expression right)) }
{
    let left = Boxed::new(alloc, left)?;
    Ok(TypedTerm::Product(left, Boxed::new(alloc, right)?))
}

/// One where the formula is true, else the other.
pub(crate) fn condition(
    alloc: Global,
    when: Boxed<Typed>,
    left: TypedTerm,
    right: TypedTerm,
) -> Result<TypedTerm, Memory>
    ensures { IfOk result (λ t. expression t ≡ choice (formula when) (expression left) (expression right)) }
{
    let left = Boxed::new(alloc, left)?;
    Ok(TypedTerm::If(when, left, Boxed::new(alloc, right)?))
}
