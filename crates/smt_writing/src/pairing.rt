// What is said of each two of several arguments.

ghost use Rattle.std.specs.Prelude.{◌≡◌, IfOk, map};
ghost use Rattle.form_typed.specs.Formula.{compares, expression, formula, iff};
ghost use Rattle.smt_terms.specs.Operators.{neighbours, pairs};
ghost use Rattle.smt_terms.specs.Translation.{compared_said, equal_said, unequal_said};
ghost use Rattle.smt_writing.specs.Pairing.{pair_said};
ghost use Rattle.smt_writing.specs.Written.{written};

use crate::nodes::{boxed_copy, not};
use crate::written::{Written, copy_term};
use form_typed::{Relation, Typed, TypedTerm};
use linear_term::Memory;
use sqlite_items::Items;
use std::alloc::Global;

/// What is said of two arguments.
#[derive(Clone, Copy)]
pub enum Pairing {
    Compared(Relation),
    Equal,
    Unequal,
}

/// The one term stands in this relation to the other.
fn compared(
    alloc: Global,
    relation: Relation,
    left: &TypedTerm,
    right: &TypedTerm,
) -> Result<Typed, Memory>
    ensures { IfOk result (λ f. formula f ≡ compares relation (expression left.now) (expression right.now)) }
{
    let left = left.copy(alloc)?;
    Ok(Typed::Rel(relation, left, right.copy(alloc)?))
}

/// The one argument stands in this relation to the other.
fn compare(
    alloc: Global,
    relation: Relation,
    left: &Written,
    right: &Written,
) -> Result<Typed, Memory>
    ensures { IfOk result (λ f. formula f ≡ compared_said relation (written left.now) (written right.now)) }
{
    let left = copy_term(alloc, left)?;
    Ok(Typed::Rel(relation, left, copy_term(alloc, right)?))
}

/// The one formula is true where the other is.
fn equivalent(alloc: Global, left: &Typed, right: &Typed) -> Result<Typed, Memory>
    ensures { IfOk result (λ f. formula f ≡ iff (formula left.now) (formula right.now)) }
{
    let left = boxed_copy(alloc, left)?;
    Ok(Typed::Iff(left, boxed_copy(alloc, right)?))
}

/// Two are equal.
fn equate(alloc: Global, left: &Written, right: &Written) -> Result<Typed, Memory>
    ensures { IfOk result (λ f. formula f ≡ equal_said (written left.now) (written right.now)) }
{
    match left {
        Written::Term(s) => match right {
            Written::Term(t) => compared(alloc, Relation::Eq, s, t),
            Written::Formula(_) => Ok(Typed::Truth(false)),
        },
        Written::Formula(f) => match right {
            Written::Formula(g) => equivalent(alloc, f, g),
            Written::Term(_) => Ok(Typed::Truth(false)),
        },
    }
}

/// Two are different.
fn distinguish(alloc: Global, left: &Written, right: &Written) -> Result<Typed, Memory>
    ensures { IfOk result (λ f. formula f ≡ unequal_said (written left.now) (written right.now)) }
{
    match left {
        Written::Term(s) => match right {
            Written::Term(t) => compared(alloc, Relation::Neq, s, t),
            Written::Formula(_) => Ok(Typed::Truth(true)),
        },
        Written::Formula(f) => match right {
            Written::Formula(g) => not(alloc, equivalent(alloc, f, g)?),
            Written::Term(_) => Ok(Typed::Truth(true)),
        },
    }
}

/// It, said of these two.
fn pair_of(
    alloc: Global,
    pairing: Pairing,
    left: &Written,
    right: &Written,
) -> Result<Typed, Memory>
    ensures { IfOk result (λ f. formula f ≡ pair_said pairing (written left.now) (written right.now)) }
{
    match pairing {
        Pairing::Compared(r) => compare(alloc, r, left, right),
        Pairing::Equal => equate(alloc, left, right),
        Pairing::Unequal => distinguish(alloc, left, right),
    }
}

/// What is said of each two neighbours.
#[tactic(auto, using(crate::proofs::Folding::chaining))]
pub(crate) fn chain(
    alloc: Global,
    pairing: Pairing,
    arguments: &[Written],
) -> Result<Items<Typed>, Memory>
    ensures { IfOk result (λ fs. map formula fs ≡ neighbours (pair_said pairing) (map written arguments.now)) }
{
    let mut out = Items::new(alloc);
    for i in 1..arguments.len() {
        out.push(pair_of(alloc, pairing, &arguments[i - 1], &arguments[i])?)?;
    }
    Ok(out)
}

/// What is said of each two, by the place of the first and then of the second.
#[tactic(auto, using(crate::proofs::Folding::pairing))]
pub(crate) fn each_pair(
    alloc: Global,
    pairing: Pairing,
    arguments: &[Written],
) -> Result<Items<Typed>, Memory>
    ensures { IfOk result (λ fs. map formula fs ≡ pairs (pair_said pairing) (map written arguments.now)) }
{
    let mut out = Items::new(alloc);
    for i in 0..arguments.len() {
        let more = with_each(alloc, pairing, &arguments[i], &arguments[i + 1..])?;
        out.append(more)?;
    }
    Ok(out)
}

/// What is said of one and each of the others.
fn with_each(
    alloc: Global,
    pairing: Pairing,
    first: &Written,
    others: &[Written],
) -> Result<Items<Typed>, Memory>
    ensures { IfOk result (λ fs. map formula fs ≡ map (pair_said pairing (written first.now)) (map written others.now)) }
{
    let mut out = Items::new(alloc);
    for other in others {
        out.push(pair_of(alloc, pairing, first, other)?)?;
    }
    Ok(out)
}
