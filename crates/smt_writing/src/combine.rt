// Several arguments put together.

ghost use Rattle.std.specs.Prelude.{◌≡◌, ◌∷◌, [], IfOk, MatchOption, map};
ghost use Rattle.form_typed.specs.Formula.{expression, formula, minus};
ghost use Rattle.smt_terms.specs.Translation.{either_said, formula_in, implied_said, joined, multiplied, term_in};
ghost use Rattle.smt_writing.specs.Written.{written};

use crate::nodes::{difference, implication, negative, times};
use crate::written::{Written, into_formula, into_term};
use form_typed::{Typed, TypedTerm};
use linear_term::Memory;
use sqlite_items::Items;
use std::alloc::Global;

/// The formulas, in order.
pub(crate) fn formulas(alloc: Global, arguments: Vec<Written>) -> Result<Items<Typed>, Memory>
    ensures { IfOk result (λ fs. map formula fs ≡ map formula_in (map written arguments.items)) }
{
    let mut out = Items::new(alloc);
    for argument in arguments {
        out.push(into_formula(argument))?;
    }
    Ok(out)
}

/// The terms, in order.
pub(crate) fn terms(alloc: Global, arguments: Vec<Written>) -> Result<Items<TypedTerm>, Memory>
    ensures { IfOk result (λ ts. map expression ts ≡ map term_in (map written arguments.items)) }
{
    let mut out = Items::new(alloc);
    for argument in arguments {
        out.push(into_term(argument))?;
    }
    Ok(out)
}

/// One argument, and the others.
pub(crate) fn split(mut arguments: Vec<Written>) -> Option<(Written, Vec<Written>)>
    ensures { MatchOption result (arguments.items ≡ []) (λ x. arguments.items ≡ x.0 ∷ x.1.items) }
{
    if arguments.is_empty() {
        return None;
    }
    let first = arguments.remove(0);
    Some((first, arguments))
}

/// The conjunction of several, and of one the formula itself.
pub(crate) fn join(mut formulas: Items<Typed>) -> Typed
    ensures { formula result ≡ joined (map formula formulas) }
{
    if formulas.len() == 1
        && let Some(only) = formulas.pop()
    {
        return only;
    }
    Typed::And(formulas)
}

/// `xor`, to the left.
#[tactic(auto, using(crate::proofs::Folding::folding))]
pub(crate) fn exclude(alloc: Global, first: Typed, rest: Vec<Written>) -> Result<Typed, Memory>
    ensures { IfOk result (λ f. formula f ≡ either_said (formula first) (map formula_in (map written rest.items))) }
{
    let mut all = first;
    for argument in rest {
        all = difference(alloc, all, into_formula(argument))?;
    }
    Ok(all)
}

/// `=>`, to the right.
#[tactic(auto, using(crate::proofs::Folding::folding))]
pub(crate) fn imply(alloc: Global, mut formulas: Items<Typed>) -> Result<Typed, Memory>
    ensures { IfOk result (λ f. formula f ≡ implied_said (map formula formulas)) }
{
    let Some(last) = formulas.pop() else {
        return Ok(Typed::And(formulas))
    };
    let mut all = last;
    while let Some(left) = formulas.pop() {
        all = implication(alloc, left, all)?;
    }
    Ok(all)
}

/// `*`, to the left.
#[tactic(auto, using(crate::proofs::Folding::folding))]
pub(crate) fn multiply(
    alloc: Global,
    first: TypedTerm,
    rest: Vec<Written>,
) -> Result<TypedTerm, Memory>
    ensures { IfOk result (λ t. expression t ≡ multiplied (expression first) (map term_in (map written rest.items))) }
{
    let mut all = first;
    for argument in rest {
        all = times(alloc, all, into_term(argument))?;
    }
    Ok(all)
}

/// The first, and the negatives of the others.
#[tactic(auto, using(crate::proofs::Folding::folding))]
pub(crate) fn subtract(
    alloc: Global,
    first: TypedTerm,
    rest: Vec<Written>,
) -> Result<Items<TypedTerm>, Memory>
    ensures { IfOk result (λ ts. map expression ts ≡ expression first ∷ map minus (map term_in (map written rest.items))) }
{
    let mut out = Items::new(alloc);
    out.push(first)?;
    for argument in rest {
        out.push(negative(alloc, into_term(argument))?)?;
    }
    Ok(out)
}
