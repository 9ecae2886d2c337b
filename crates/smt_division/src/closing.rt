// Terms without division, with the quotients of which they speak, and their closing to formulas.

ghost use Rattle.smt_division.specs.Terms.{bound, closing, closed, divided, divided_all, divided_by, divided_some, divisible, in_let, let_around, nothing, noted, quantified, remainder, together, used, whole, with_reduct};
ghost use Rattle.smt_division.specs.Views.{reduct_is, reducts_are};
ghost use Rattle.smt_lists.specs.Expressions.{and_expr, expr, exprs_of, list};
ghost use Rattle.std.specs.Option.{option_map};
ghost use Rattle.std.specs.Prelude.{◌≡◌, ◌++◌, ◌∷◌, [], IfOk, map};

use crate::copies::{copy, copy_all};
use crate::divisors::greatest_remainder;
use crate::made::{condition, multiple, one, quotient, two, use_of, variable};
use linear_term::Memory;
use smt_lists::Sexp;
use sqlite_items::Items;
use std::alloc::Global;

/// A term without division, the variables that stand for the quotients of which it speaks, and what these are.
#[derive(Drop)]
pub struct Reduced {
    pub term: Sexp,
    pub variables: Items<Sexp>,
    pub conditions: Items<Sexp>,
}

/// The same of several terms.
#[derive(Drop)]
pub struct ReducedAll {
    pub terms: Items<Sexp>,
    pub variables: Items<Sexp>,
    pub conditions: Items<Sexp>,
}

/// A term that speaks of no quotient.
pub fn whole(alloc: Global, term: Sexp) -> Reduced
    ensures { reduct_is result ≡ whole (expr term) }
{
    Reduced {
        term,
        variables: Items::new(alloc),
        conditions: Items::new(alloc),
    }
}

/// No terms.
pub fn nothing(alloc: Global) -> ReducedAll
    ensures { reducts_are result ≡ nothing }
{
    ReducedAll {
        terms: Items::new(alloc),
        variables: Items::new(alloc),
        conditions: Items::new(alloc),
    }
}

/// Terms with one more after them.
pub fn with_term(terms: ReducedAll, more: Reduced) -> Result<ReducedAll, Memory>
    ensures { IfOk result (λ ps. reducts_are ps ≡ with_reduct (reducts_are terms) (reduct_is more)) }
{
    let ReducedAll {
        mut terms,
        mut variables,
        mut conditions,
    } = terms;
    let Reduced {
        term,
        variables: more_variables,
        conditions: more_conditions,
    } = more;
    terms.push(term)?;
    variables.append(more_variables)?;
    conditions.append(more_conditions)?;
    Ok(ReducedAll {
        terms,
        variables,
        conditions,
    })
}

/// Terms with one that speaks of no quotient before them.
pub fn with_first(alloc: Global, first: Sexp, terms: ReducedAll) -> Result<ReducedAll, Memory>
    ensures { IfOk result (λ ps. reducts_are ps ≡ together (whole (expr first)) (reducts_are terms)) }
{
    let ReducedAll {
        terms: more,
        variables,
        conditions,
    } = terms;
    let mut terms = one(alloc, first)?;
    terms.append(more)?;
    Ok(ReducedAll {
        terms,
        variables,
        conditions,
    })
}

/// A list of these members, as it stands.
pub fn left(alloc: Global, at: u64, head: &Sexp, rest: &[Sexp]) -> Result<Reduced, Memory>
    ensures { IfOk result (λ p. reduct_is p ≡ whole (list at (and_expr (expr head.now) (exprs_of rest.now)))) }
{
    let mut members = one(alloc, copy(alloc, head)?)?;
    members.append(copy_all(alloc, rest)?)?;
    Ok(whole(alloc, Sexp::List(at, members)))
}

/// A list of this head and of these members.
pub fn headed(alloc: Global, at: u64, head: &Sexp, rest: Items<Sexp>) -> Result<Sexp, Memory>
    ensures { IfOk result (λ e. expr e ≡ list at (and_expr (expr head.now) (exprs_of rest))) }
{
    let mut members = one(alloc, copy(alloc, head)?)?;
    members.append(rest)?;
    Ok(Sexp::List(at, members))
}

/// A list of this head and of these terms.
pub fn used(alloc: Global, at: u64, head: &Sexp, terms: ReducedAll) -> Result<Reduced, Memory>
    ensures { IfOk result (λ p. reduct_is p ≡ used at (expr head.now) (reducts_are terms)) }
{
    let ReducedAll {
        terms,
        variables,
        conditions,
    } = terms;
    let term = headed(alloc, at, head, terms)?;
    Ok(Reduced {
        term,
        variables,
        conditions,
    })
}

/// There are numbers for these variables at which these conditions hold and the formula is true.
fn quantified(
    alloc: Global,
    at: u64,
    term: Sexp,
    variables: Items<Sexp>,
    conditions: Items<Sexp>,
) -> Result<Sexp, Memory>
    ensures { IfOk result (λ e. expr e ≡ quantified at (expr term) (map expr variables) (map expr conditions)) }
{
    let mut parts = conditions;
    parts.push(term)?;
    let body = use_of(alloc, at, b"and", parts)?;
    let members = two(alloc, Sexp::List(at, variables), body)?;
    use_of(alloc, at, b"exists", members)
}

/// The same, where there is a variable; else the formula itself.
fn closing(
    alloc: Global,
    at: u64,
    term: Sexp,
    variables: Items<Sexp>,
    conditions: Items<Sexp>,
) -> Result<Sexp, Memory>
    ensures { IfOk result (λ e. expr e ≡ closing at (expr term) (map expr variables) (map expr conditions)) }
{
    if variables.is_empty() {
        return Ok(term);
    }
    quantified(alloc, at, term, variables, conditions)
}

/// There are quotients at which the formula is true.
pub fn closed(alloc: Global, at: u64, formula: Reduced) -> Result<Sexp, Memory>
    ensures { IfOk result (λ e. expr e ≡ closed at (reduct_is formula)) }
{
    let Reduced {
        term,
        variables,
        conditions,
    } = formula;
    closing(alloc, at, term, variables, conditions)
}

/// The quotient of a term by a divisor with this greatest remainder.
fn divided(
    alloc: Global,
    at: u64,
    dividend: Reduced,
    n: &Sexp,
    greatest: i128,
) -> Result<Reduced, Memory>
    ensures { IfOk result (λ p. reduct_is p ≡ divided at (reduct_is dividend) (expr n.now) greatest) }
{
    let Reduced {
        term,
        mut variables,
        mut conditions,
    } = dividend;
    variables.push(variable(alloc, at, n)?)?;
    conditions.push(condition(alloc, at, term, n, greatest)?)?;
    let term = quotient(alloc, at, n)?;
    Ok(Reduced {
        term,
        variables,
        conditions,
    })
}

/// The quotient by one divisor after another. Returns None if one of them is no divisor.
pub fn divided_all(
    alloc: Global,
    at: u64,
    dividend: Reduced,
    divisors: &[Sexp],
) -> Result<Option<Reduced>, Memory>
    ensures { IfOk result (λ p. option_map reduct_is p ≡ divided_all at (exprs_of divisors.now) (reduct_is dividend)) }
{
    let mut quotient = dividend;
    for n in divisors {
        let Some(greatest) = greatest_remainder(alloc, n)? else {
            return Ok(None);
        };
        quotient = divided(alloc, at, quotient, n, greatest)?;
    }
    Ok(Some(quotient))
}

/// The same, where there is a divisor. Returns None if there is none.
pub fn divided_some(
    alloc: Global,
    at: u64,
    dividend: Reduced,
    divisors: &[Sexp],
) -> Result<Option<Reduced>, Memory>
    ensures { IfOk result (λ p. option_map reduct_is p ≡ divided_some at (exprs_of divisors.now) (reduct_is dividend)) }
{
    if divisors.is_empty() {
        return Ok(None);
    }
    divided_all(alloc, at, dividend, divisors)
}

/// The remainder of a term by a divisor with this greatest remainder.
pub fn remainder(
    alloc: Global,
    at: u64,
    dividend: Reduced,
    n: &Sexp,
    greatest: i128,
) -> Result<Reduced, Memory>
    ensures { IfOk result (λ p. reduct_is p ≡ remainder at (reduct_is dividend) (expr n.now) greatest) }
{
    let Reduced {
        term,
        mut variables,
        mut conditions,
    } = dividend;
    variables.push(variable(alloc, at, n)?)?;
    conditions.push(condition(alloc, at, copy(alloc, &term)?, n, greatest)?)?;
    let parts = two(alloc, term, multiple(alloc, at, n)?)?;
    let term = use_of(alloc, at, b"-", parts)?;
    Ok(Reduced {
        term,
        variables,
        conditions,
    })
}

/// That a term is a multiple of a numeral.
pub fn divisible(alloc: Global, at: u64, dividend: Reduced, n: &Sexp) -> Result<Reduced, Memory>
    ensures { IfOk result (λ p. reduct_is p ≡ divisible at (reduct_is dividend) (expr n.now)) }
{
    let Reduced {
        term,
        mut variables,
        conditions,
    } = dividend;
    variables.push(variable(alloc, at, n)?)?;
    let sides = two(alloc, term, multiple(alloc, at, n)?)?;
    let equation = use_of(alloc, at, b"=", sides)?;
    Ok(whole(alloc, closing(alloc, at, equation, variables, conditions)?))
}

/// The binding of a symbol to a term.
pub fn bound(alloc: Global, at: u64, name: &Sexp, term: Reduced) -> Result<Reduced, Memory>
    ensures { IfOk result (λ p. reduct_is p ≡ bound at (expr name.now) (reduct_is term)) }
{
    let Reduced {
        term,
        variables,
        conditions,
    } = term;
    let term = Sexp::List(at, two(alloc, copy(alloc, name)?, term)?);
    Ok(Reduced {
        term,
        variables,
        conditions,
    })
}

/// A term with attributes.
pub fn noted(
    alloc: Global,
    at: u64,
    head: &Sexp,
    term: Reduced,
    attributes: &[Sexp],
) -> Result<Reduced, Memory>
    ensures { IfOk result (λ p. reduct_is p ≡ noted at (expr head.now) (exprs_of attributes.now) (reduct_is term)) }
{
    let Reduced {
        term,
        variables,
        conditions,
    } = term;
    let mut rest = one(alloc, term)?;
    rest.append(copy_all(alloc, attributes)?)?;
    let term = headed(alloc, at, head, rest)?;
    Ok(Reduced {
        term,
        variables,
        conditions,
    })
}

/// The relation of these terms, with its quotients closed.
pub fn related(alloc: Global, at: u64, head: &Sexp, terms: ReducedAll) -> Result<Reduced, Memory>
    ensures { IfOk result (λ p. reduct_is p ≡ whole (closed at (used at (expr head.now) (reducts_are terms)))) }
{
    let relation = used(alloc, at, head, terms)?;
    Ok(whole(alloc, closed(alloc, at, relation)?))
}

/// The connective of these formulas.
pub fn connected(
    alloc: Global,
    at: u64,
    head: &Sexp,
    formulas: Items<Sexp>,
) -> Result<Reduced, Memory>
    ensures { IfOk result (λ p. reduct_is p ≡ whole (list at (and_expr (expr head.now) (exprs_of formulas)))) }
{
    Ok(whole(alloc, headed(alloc, at, head, formulas)?))
}

/// A list of these members, as it stands.
pub fn kept(alloc: Global, at: u64, head: &Sexp, rest: &[Sexp]) -> Result<Sexp, Memory>
    ensures { IfOk result (λ e. expr e ≡ list at (and_expr (expr head.now) (exprs_of rest.now))) }
{
    headed(alloc, at, head, copy_all(alloc, rest)?)
}
