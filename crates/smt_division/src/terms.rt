// The term without division that an S-expression is as a term. Calls nest along the levels of the S-expression alone: a list is
// gone through in a loop.

ghost use Rattle.smt_division.specs.Terms.{bound_reduct, bound_reducts, choice_reduct, closed, closed_all, indexed_reduct, let_reduct, note_reduct, quantified_reduct, quotient_reduct, reduct, reducts, remainder_reduct, whole};
ghost use Rattle.smt_division.specs.Views.{reduct_is, reducts_are};
ghost use Rattle.smt_lists.specs.Expressions.{and_expr, expr, exprs_of, list, place_of};
ghost use Rattle.std.specs.Prelude.{◌≡◌, IfOk, map};

use crate::closing::{
    Reduced, ReducedAll, bound, closed, connected, divided_some, divisible, headed, left, noted,
    nothing, related, remainder, used, whole, with_first, with_term,
};
use crate::copies::{copy, copy_all};
use crate::divisors::greatest_remainder;
use crate::forms::{Form, binder, form_of, index_of, pair, single};
use crate::lets::{Let, let_around};
use crate::made::{place, two};
use linear_term::Memory;
use smt_lists::Sexp;
use sqlite_items::Items;
use std::alloc::Global;

/// The term without division that an S-expression is as a term. What is no such term is left.
#[cycle(terms)]
pub fn reduced(alloc: Global, e: &Sexp) -> Result<Reduced, Memory>
    ensures { IfOk result (λ p. reduct_is p ≡ reduct (expr e.now)) }
{
    match e {
        Sexp::Atom(_) => Ok(whole(alloc, copy(alloc, e)?)),
        Sexp::List(at, members) => {
            let Some((head, rest)) = members.as_slice().split_first() else {
                return Ok(whole(alloc, copy(alloc, e)?));
            };
            match form_of(head) {
                Form::Let => reduced_let(alloc, *at, rest, head),
                Form::Quantifier => reduced_quantified(alloc, *at, rest, head),
                Form::Note => reduced_note(alloc, *at, rest, head),
                Form::Other => left(alloc, *at, head, rest),
                Form::Indexed => reduced_indexed(alloc, *at, rest, head),
                Form::Quotient => reduced_quotient(alloc, *at, rest, head),
                Form::Remainder => reduced_remainder(alloc, *at, rest, head),
                Form::Relation => related(alloc, *at, head, reduced_all(alloc, rest)?),
                Form::Connective => connected(alloc, *at, head, closed_all(alloc, rest)?),
                Form::Choice => reduced_choice(alloc, *at, rest, head),
                Form::Use => used(alloc, *at, head, reduced_all(alloc, rest)?),
            }
        }
    }
}

/// The terms without division that S-expressions are.
#[cycle(terms)]
fn reduced_all(alloc: Global, es: &[Sexp]) -> Result<ReducedAll, Memory>
    ensures { IfOk result (λ ps. reducts_are ps ≡ reducts (exprs_of es.now)) }
{
    let mut terms = nothing(alloc);
    for e in es {
        terms = with_term(terms, reduced(alloc, e)?)?;
    }
    Ok(terms)
}

/// The formulas without division that S-expressions are.
#[cycle(terms)]
pub fn closed_all(alloc: Global, es: &[Sexp]) -> Result<Items<Sexp>, Memory>
    ensures { IfOk result (λ xs. map expr xs ≡ closed_all (exprs_of es.now)) }
{
    let mut formulas = Items::new(alloc);
    for e in es {
        let formula = reduced(alloc, e)?;
        formulas.push(closed(alloc, place(e), formula)?)?;
    }
    Ok(formulas)
}

/// `let` with these after it.
#[cycle(terms)]
fn reduced_let(alloc: Global, at: u64, rest: &[Sexp], head: &Sexp) -> Result<Reduced, Memory>
    ensures { IfOk result (λ p. reduct_is p ≡ let_reduct at (expr head.now) (exprs_of rest.now)) }
{
    let Some(binder) = binder(rest) else {
        return left(alloc, at, head, rest);
    };
    let bindings = reduced_bindings(alloc, binder.members)?;
    let body = reduced(alloc, binder.body)?;
    let outer = Let {
        at,
        head,
        bindings_at: binder.at,
    };
    let_around(alloc, outer, bindings, body)
}

/// The bindings without division that S-expressions are.
#[cycle(terms)]
fn reduced_bindings(alloc: Global, pairs: &[Sexp]) -> Result<ReducedAll, Memory>
    ensures { IfOk result (λ ps. reducts_are ps ≡ bound_reducts (exprs_of pairs.now)) }
{
    let mut bindings = nothing(alloc);
    for pair in pairs {
        bindings = with_term(bindings, reduced_binding(alloc, pair)?)?;
    }
    Ok(bindings)
}

/// The binding without division that a list of a symbol and a term is.
#[cycle(terms)]
fn reduced_binding(alloc: Global, binding: &Sexp) -> Result<Reduced, Memory>
    ensures { IfOk result (λ p. reduct_is p ≡ bound_reduct (expr binding.now)) }
{
    match binding {
        Sexp::Atom(_) => Ok(whole(alloc, copy(alloc, binding)?)),
        Sexp::List(at, members) => {
            let Some((name, term)) = pair(members.as_slice()) else {
                return Ok(whole(alloc, copy(alloc, binding)?));
            };
            bound(alloc, *at, name, reduced(alloc, term)?)
        }
    }
}

/// A quantifier with these after it.
#[cycle(terms)]
fn reduced_quantified(alloc: Global, at: u64, rest: &[Sexp], head: &Sexp) -> Result<Reduced, Memory>
    ensures { IfOk result (λ p. reduct_is p ≡ quantified_reduct at (expr head.now) (exprs_of rest.now)) }
{
    let Some(binder) = binder(rest) else {
        return left(alloc, at, head, rest);
    };
    let formula = reduced(alloc, binder.body)?;
    let formula = closed(alloc, place(binder.body), formula)?;
    let variables = Sexp::List(binder.at, copy_all(alloc, binder.members)?);
    let members = two(alloc, variables, formula)?;
    Ok(whole(alloc, headed(alloc, at, head, members)?))
}

/// `!` with these after it.
#[cycle(terms)]
fn reduced_note(alloc: Global, at: u64, rest: &[Sexp], head: &Sexp) -> Result<Reduced, Memory>
    ensures { IfOk result (λ p. reduct_is p ≡ note_reduct at (expr head.now) (exprs_of rest.now)) }
{
    let Some((term, attributes)) = rest.split_first() else {
        return left(alloc, at, head, rest);
    };
    noted(alloc, at, head, reduced(alloc, term)?, attributes)
}

/// `ite` with these after it.
#[cycle(terms)]
fn reduced_choice(alloc: Global, at: u64, rest: &[Sexp], head: &Sexp) -> Result<Reduced, Memory>
    ensures { IfOk result (λ p. reduct_is p ≡ choice_reduct at (expr head.now) (exprs_of rest.now)) }
{
    let Some((condition, branches)) = rest.split_first() else {
        return left(alloc, at, head, rest);
    };
    let formula = reduced(alloc, condition)?;
    let formula = closed(alloc, place(condition), formula)?;
    let mut terms = with_first(alloc, formula, nothing(alloc))?;
    for e in branches {
        terms = with_term(terms, reduced(alloc, e)?)?;
    }
    used(alloc, at, head, terms)
}

/// `div` with these after it.
#[cycle(terms)]
fn reduced_quotient(alloc: Global, at: u64, rest: &[Sexp], head: &Sexp) -> Result<Reduced, Memory>
    ensures { IfOk result (λ p. reduct_is p ≡ quotient_reduct at (expr head.now) (exprs_of rest.now)) }
{
    let Some((dividend, divisors)) = rest.split_first() else {
        return left(alloc, at, head, rest);
    };
    let dividend = reduced(alloc, dividend)?;
    match divided_some(alloc, at, dividend, divisors)? {
        Some(quotient) => Ok(quotient),
        None => left(alloc, at, head, rest),
    }
}

/// `mod` with these after it.
#[cycle(terms)]
fn reduced_remainder(alloc: Global, at: u64, rest: &[Sexp], head: &Sexp) -> Result<Reduced, Memory>
    ensures { IfOk result (λ p. reduct_is p ≡ remainder_reduct at (expr head.now) (exprs_of rest.now)) }
{
    let Some((dividend, n)) = pair(rest) else {
        return left(alloc, at, head, rest);
    };
    let Some(greatest) = greatest_remainder(alloc, n)? else {
        return left(alloc, at, head, rest);
    };
    remainder(alloc, at, reduced(alloc, dividend)?, n, greatest)
}

/// A list with these after it.
#[cycle(terms)]
fn reduced_indexed(alloc: Global, at: u64, rest: &[Sexp], head: &Sexp) -> Result<Reduced, Memory>
    ensures { IfOk result (λ p. reduct_is p ≡ indexed_reduct at (expr head.now) (exprs_of rest.now)) }
{
    let Some(term) = single(rest) else {
        return left(alloc, at, head, rest);
    };
    let Some(n) = index_of(head) else {
        return left(alloc, at, head, rest);
    };
    divisible(alloc, at, reduced(alloc, term)?, n)
}
