// The stack of the finished terms of an atom: a list, of which contracts see the last first.

ghost use Rattle.std.specs.Prelude.{◌≡◌, ◌∷◌, IfOk, reverse, take, drop};
ghost use Rattle.function_encoding.specs.Actions.{top, under};

use linear_term::{Memory, Term};
use sqlite_items::Items;
use std::alloc::Global;

/// The last term, which is taken off; the number 0 where there is none.
pub fn popped(alloc: Global, stack: &mut Items<Term>) -> Term
    ensures term { result ≡ top (reverse stack.old) }
    ensures rest { reverse stack.new ≡ under (reverse stack.old) }
{
    match stack.pop() {
        Some(t) => t,
        None => Term::number(alloc, 0),
    }
}

/// The stack with one more term.
pub fn with_last(mut stack: Items<Term>, t: Term) -> Result<Items<Term>, Memory>
    ensures { IfOk result (λ vs. reverse vs ≡ t ∷ reverse stack) }
{
    stack.push(t)?;
    Ok(stack)
}

/// The same terms once more.
pub fn copied(alloc: Global, terms: &[Term]) -> Result<Items<Term>, Memory>
    ensures { IfOk result (λ ts. ts ≡ terms.now) }
{
    let mut out = Items::new(alloc);
    for t in terms {
        out.push(t.copy()?)?;
    }
    Ok(out)
}

/// The last k terms, the last one first, and those below them.
fn taken(
    alloc: Global,
    mut stack: Items<Term>,
    k: usize,
) -> Result<(Items<Term>, Items<Term>), Memory>
    ensures { IfOk result (λ p. (p.0 ≡ take k (reverse stack)) × (reverse p.1 ≡ drop k (reverse stack))) }
{
    let mut out = Items::new(alloc);
    for _ in 0..k {
        let Some(t) = stack.pop() else {
            return Ok((out, stack));
        };
        out.push(t)?;
    }
    Ok((out, stack))
}

/// The terms from the last one back.
fn turned_round(alloc: Global, mut terms: Items<Term>) -> Result<Items<Term>, Memory>
    ensures { IfOk result (λ out. out ≡ reverse terms) }
{
    let mut out = Items::new(alloc);
    while let Some(t) = terms.pop() {
        out.push(t)?;
    }
    Ok(out)
}

/// The last k terms in their order, and those below them.
pub fn split(
    alloc: Global,
    stack: Items<Term>,
    k: usize,
) -> Result<(Items<Term>, Items<Term>), Memory>
    ensures { IfOk result (λ p. (p.0 ≡ reverse (take k (reverse stack))) × (reverse p.1 ≡ drop k (reverse stack))) }
{
    let (last, below) = taken(alloc, stack, k)?;
    Ok((turned_round(alloc, last)?, below))
}

/// The stack without the last term, and without the last but one.
pub fn two_ways(alloc: Global, mut stack: Items<Term>) -> Result<(Items<Term>, Items<Term>), Memory>
    ensures { IfOk result (λ p. (reverse p.0 ≡ under (reverse stack)) × (reverse p.1 ≡ top (reverse stack) ∷ under (under (reverse stack)))) }
{
    let last = popped(alloc, &mut stack);
    let mut other = copied(alloc, stack.as_slice())?;
    let _ = popped(alloc, &mut other);
    Ok((stack, with_last(other, last)?))
}

/// A copy of the last term.
pub fn last_of(alloc: Global, stack: &[Term]) -> Result<Term, Memory>
    ensures { IfOk result (λ t. t ≡ top (reverse stack.now)) }
{
    let mut copy = copied(alloc, stack)?;
    Ok(popped(alloc, &mut copy))
}
