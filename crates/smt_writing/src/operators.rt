// An operator at what its arguments became.

ghost use Rattle.std.specs.Prelude.{◌≡◌, ◌∷◌, [], IfOk, false, map};
ghost use Rattle.form_typed.specs.Formula.{constant, every, expression, formula, formulas, implies, some};
ghost use Rattle.smt_terms.specs.Translation.{a_formula, a_term, operated};
ghost use Rattle.smt_terms.specs.declared.operator.Operator.{Operator};
ghost use Rattle.smt_writing.specs.Written.{written};

use crate::combine::{exclude, formulas, imply, join, multiply, split, subtract, terms};
use crate::nodes::{boxed_copy, condition, difference, magnitude, negative, not, times, two};
use crate::pairing::{Pairing, chain, each_pair};
use crate::written::{Written, into_formula, into_term};
use form_typed::{Typed, TypedTerm};
use linear_term::Memory;
use smt_terms::Operator;
use sqlite_items::{Boxed, Items};
use std::alloc::Global;

/// What is of no interest: an operator at arguments of another number.
fn junk() -> Written
    ensures { written result ≡ a_formula (constant false) }
{
    Written::Formula(Typed::Truth(false))
}

/// `not`
fn operate_not(alloc: Global, arguments: Vec<Written>) -> Result<Written, Memory>
    ensures { IfOk result (λ w. written w ≡ operated Operator.Not (map written arguments.items)) }
{
    let Some((first, _)) = split(arguments) else {
        return Ok(junk())
    };
    Ok(Written::Formula(not(alloc, into_formula(first))?))
}

/// `and`
fn operate_and(alloc: Global, mut arguments: Vec<Written>) -> Result<Written, Memory>
    ensures { IfOk result (λ w. written w ≡ operated Operator.And (map written arguments.items)) }
{
    if arguments.len() == 1
        && let Some(only) = arguments.pop()
    {
        return Ok(only);
    }
    Ok(Written::Formula(Typed::And(formulas(alloc, arguments)?)))
}

/// `or`
fn operate_or(alloc: Global, mut arguments: Vec<Written>) -> Result<Written, Memory>
    ensures { IfOk result (λ w. written w ≡ operated Operator.Or (map written arguments.items)) }
{
    if arguments.len() == 1
        && let Some(only) = arguments.pop()
    {
        return Ok(only);
    }
    Ok(Written::Formula(Typed::Or(formulas(alloc, arguments)?)))
}

/// `+`
fn operate_plus(alloc: Global, mut arguments: Vec<Written>) -> Result<Written, Memory>
    ensures { IfOk result (λ w. written w ≡ operated Operator.Plus (map written arguments.items)) }
{
    if arguments.len() == 1
        && let Some(only) = arguments.pop()
    {
        return Ok(only);
    }
    Ok(Written::Term(TypedTerm::Sum(terms(alloc, arguments)?)))
}

/// `=>`
fn operate_implies(alloc: Global, mut arguments: Vec<Written>) -> Result<Written, Memory>
    ensures { IfOk result (λ w. written w ≡ operated Operator.Implies (map written arguments.items)) }
{
    if arguments.len() == 1
        && let Some(only) = arguments.pop()
    {
        return Ok(only);
    }
    Ok(Written::Formula(imply(alloc, formulas(alloc, arguments)?)?))
}

/// `xor`
fn operate_xor(alloc: Global, arguments: Vec<Written>) -> Result<Written, Memory>
    ensures { IfOk result (λ w. written w ≡ operated Operator.Xor (map written arguments.items)) }
{
    let Some((first, rest)) = split(arguments) else {
        return Ok(junk())
    };
    let Some((second, more)) = split(rest) else {
        return Ok(first)
    };
    let start = difference(alloc, into_formula(first), into_formula(second))?;
    Ok(Written::Formula(exclude(alloc, start, more)?))
}

/// `*`
fn operate_times(alloc: Global, arguments: Vec<Written>) -> Result<Written, Memory>
    ensures { IfOk result (λ w. written w ≡ operated Operator.Times (map written arguments.items)) }
{
    let Some((first, rest)) = split(arguments) else {
        return Ok(junk())
    };
    let Some((second, more)) = split(rest) else {
        return Ok(first)
    };
    let start = times(alloc, into_term(first), into_term(second))?;
    Ok(Written::Term(multiply(alloc, start, more)?))
}

/// `abs`
fn operate_abs(alloc: Global, arguments: Vec<Written>) -> Result<Written, Memory>
    ensures { IfOk result (λ w. written w ≡ operated Operator.Abs (map written arguments.items)) }
{
    let Some((first, _)) = split(arguments) else {
        return Ok(junk())
    };
    Ok(Written::Term(magnitude(alloc, into_term(first))?))
}

/// `-`
fn operate_minus(alloc: Global, arguments: Vec<Written>) -> Result<Written, Memory>
    ensures { IfOk result (λ w. written w ≡ operated Operator.Minus (map written arguments.items)) }
{
    let Some((first, rest)) = split(arguments) else {
        return Ok(Written::Term(TypedTerm::Sum(Items::new(alloc))));
    };
    if rest.is_empty() {
        return Ok(Written::Term(negative(alloc, into_term(first))?));
    }
    Ok(Written::Term(TypedTerm::Sum(subtract(alloc, into_term(first), rest)?)))
}

/// One term where the formula is true, else the first of the other arguments.
fn choose_term(
    alloc: Global,
    when: Boxed<Typed>,
    first: TypedTerm,
    others: Vec<Written>,
) -> Result<Written, Memory>
    ensures { IfOk result (λ w. written w ≡ operated Operator.Choose (a_formula (formula when) ∷ a_term (expression first) ∷ map written others.items)) }
{
    let Some((second, _)) = split(others) else {
        return Ok(junk())
    };
    Ok(Written::Term(condition(alloc, when, first, into_term(second))?))
}

/// The first formula where the condition is true, else the second one.
fn either(
    alloc: Global,
    when: Boxed<Typed>,
    first: Boxed<Typed>,
    second: Boxed<Typed>,
) -> Result<Typed, Memory>
    ensures { IfOk result (λ f. formula f ≡ every (formulas (implies (formula when) (formula first)
        ∷ some (formulas (formula when ∷ formula second ∷ [])) ∷ []))) }
{
    let again = boxed_copy(alloc, when.get())?;
    let otherwise = Typed::Or(two(alloc, when.into_inner(), second.into_inner())?);
    Ok(Typed::And(two(alloc, Typed::Implies(again, first), otherwise)?))
}

/// One formula where the formula is true, else the first of the other arguments.
fn choose_formula(
    alloc: Global,
    when: Boxed<Typed>,
    first: Typed,
    others: Vec<Written>,
) -> Result<Written, Memory>
    ensures { IfOk result (λ w. written w ≡ operated Operator.Choose (a_formula (formula when) ∷ a_formula (formula first) ∷ map written others.items)) }
{
    let first = Boxed::new(alloc, first)?;
    let Some((second, _)) = split(others) else {
        return Ok(junk())
    };
    let second = Boxed::new(alloc, into_formula(second))?;
    Ok(Written::Formula(either(alloc, when, first, second)?))
}

/// `ite`
fn operate_choose(alloc: Global, arguments: Vec<Written>) -> Result<Written, Memory>
    ensures { IfOk result (λ w. written w ≡ operated Operator.Choose (map written arguments.items)) }
{
    let Some((condition, more)) = split(arguments) else {
        return Ok(junk())
    };
    let when = Boxed::new(alloc, into_formula(condition))?;
    let Some((first, others)) = split(more) else {
        return Ok(junk())
    };
    match first {
        Written::Term(s) => choose_term(alloc, when, s, others),
        Written::Formula(f) => choose_formula(alloc, when, f, others),
    }
}

/// An operator at its arguments.
pub(crate) fn operate(
    alloc: Global,
    operator: Operator,
    arguments: Vec<Written>,
) -> Result<Written, Memory>
    ensures { IfOk result (λ w. written w ≡ operated operator (map written arguments.items)) }
{
    match operator {
        Operator::Truth(b) => Ok(Written::Formula(Typed::Truth(b))),
        Operator::Not => operate_not(alloc, arguments),
        Operator::And => operate_and(alloc, arguments),
        Operator::Or => operate_or(alloc, arguments),
        Operator::Xor => operate_xor(alloc, arguments),
        Operator::Implies => operate_implies(alloc, arguments),
        Operator::Equal => {
            let all = chain(alloc, Pairing::Equal, arguments.as_slice())?;
            Ok(Written::Formula(join(all)))
        }
        Operator::Distinct => {
            let all = each_pair(alloc, Pairing::Unequal, arguments.as_slice())?;
            Ok(Written::Formula(join(all)))
        }
        Operator::Choose => operate_choose(alloc, arguments),
        Operator::Compare(r) => {
            let all = chain(alloc, Pairing::Compared(r), arguments.as_slice())?;
            Ok(Written::Formula(join(all)))
        }
        Operator::Plus => operate_plus(alloc, arguments),
        Operator::Minus => operate_minus(alloc, arguments),
        Operator::Times => operate_times(alloc, arguments),
        Operator::Abs => operate_abs(alloc, arguments),
    }
}
