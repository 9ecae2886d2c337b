// The commands that are made for a function that is defined by an equation: its declaration, and the assertion that the equation
// holds for all arguments.

ghost use Rattle.smt_commands.specs.Commands.{members_of};
ghost use Rattle.smt_commands.specs.Views.{symbol_is};
ghost use Rattle.smt_lists.specs.Expressions.{expr};
ghost use Rattle.smt_shorthand.specs.Equations.{assertion, claim, declaration, equation, first_of, first_in, second_in, second_of, use_of, variable_in, variable_of};
ghost use Rattle.std.specs.Option.{option_map};
ghost use Rattle.std.specs.Prelude.{◌≡◌, IfOk, map};

use crate::copying::copy;
use crate::resolving::symbol_at;
use linear_term::Memory;
use smt_commands::{Name, members, symbol};
use smt_lists::Sexp;
use sqlite_items::Items;
use std::alloc::Global;

/// The declaration of a function, at this offset.
pub fn declaration(
    alloc: Global,
    at: u64,
    name: &Sexp,
    variables: &[Sexp],
    sort: &Sexp,
) -> Result<Sexp, Memory>
    ensures { IfOk result (λ e. expr e ≡ declaration at (expr name.now) (map expr variables.now) (expr sort.now)) }
{
    let mut parts = Items::new(alloc);
    parts.push(symbol_at(alloc, at, b"declare-fun".as_slice())?)?;
    parts.push(copy(alloc, name)?)?;
    parts.push(Sexp::List(at, seconds(alloc, variables)?))?;
    parts.push(copy(alloc, sort)?)?;
    Ok(Sexp::List(at, parts))
}

/// The assertion of a function's equation.
pub fn assertion(
    alloc: Global,
    at: u64,
    name: &Sexp,
    list: &Sexp,
    variables: &[Sexp],
    term: &Sexp,
) -> Result<Sexp, Memory>
    ensures { IfOk result (λ e. expr e ≡ assertion at (expr name.now) (expr list.now) (map expr variables.now) (expr term.now)) }
{
    let mut parts = Items::new(alloc);
    parts.push(symbol_at(alloc, at, b"assert".as_slice())?)?;
    parts.push(claim(alloc, at, name, list, variables, term)?)?;
    Ok(Sexp::List(at, parts))
}

/// A function's equation for all arguments.
fn claim(
    alloc: Global,
    at: u64,
    name: &Sexp,
    list: &Sexp,
    variables: &[Sexp],
    term: &Sexp,
) -> Result<Sexp, Memory>
    ensures { IfOk result (λ e. expr e ≡ claim at (expr name.now) (expr list.now) (map expr variables.now) (expr term.now)) }
{
    let equation = equation(alloc, at, name, variables, term)?;
    if variables.is_empty() {
        return Ok(equation);
    }
    let mut parts = Items::new(alloc);
    parts.push(symbol_at(alloc, at, b"forall".as_slice())?)?;
    parts.push(copy(alloc, list)?)?;
    parts.push(equation)?;
    Ok(Sexp::List(at, parts))
}

/// A function's equation.
fn equation(
    alloc: Global,
    at: u64,
    name: &Sexp,
    variables: &[Sexp],
    term: &Sexp,
) -> Result<Sexp, Memory>
    ensures { IfOk result (λ e. expr e ≡ equation at (expr name.now) (map expr variables.now) (expr term.now)) }
{
    let mut parts = Items::new(alloc);
    parts.push(symbol_at(alloc, at, b"=".as_slice())?)?;
    parts.push(use_of(alloc, at, name, variables)?)?;
    parts.push(copy(alloc, term)?)?;
    Ok(Sexp::List(at, parts))
}

/// A function at its variables.
fn use_of(alloc: Global, at: u64, name: &Sexp, variables: &[Sexp]) -> Result<Sexp, Memory>
    ensures { IfOk result (λ e. expr e ≡ use_of at (expr name.now) (map expr variables.now)) }
{
    if variables.is_empty() {
        return copy(alloc, name);
    }
    let mut parts = Items::new(alloc);
    parts.push(copy(alloc, name)?)?;
    parts.append(firsts(alloc, variables)?)?;
    Ok(Sexp::List(at, parts))
}

/// The names of variables.
fn firsts(alloc: Global, variables: &[Sexp]) -> Result<Items<Sexp>, Memory>
    ensures { IfOk result (λ es. map expr es ≡ map first_of (map expr variables.now)) }
{
    let mut names = Items::new(alloc);
    for variable in variables {
        names.push(copy(alloc, first_of(variable))?)?;
    }
    Ok(names)
}

/// The sorts of variables.
fn seconds(alloc: Global, variables: &[Sexp]) -> Result<Items<Sexp>, Memory>
    ensures { IfOk result (λ es. map expr es ≡ map second_of (map expr variables.now)) }
{
    let mut sorts = Items::new(alloc);
    for variable in variables {
        sorts.push(copy(alloc, second_of(variable))?)?;
    }
    Ok(sorts)
}

/// The first member of a list; anything else itself.
pub fn first_of(e: &Sexp) -> &Sexp
    ensures { expr result.now ≡ first_of (expr e.now) }
{
    let Some(members) = members(e) else {
        return e;
    };
    match members.split_first() {
        Some((first, _)) => first,
        None => e,
    }
}

/// The second member of a list; anything else itself.
pub fn second_of(e: &Sexp) -> &Sexp
    ensures { expr result.now ≡ second_of (expr e.now) }
{
    let Some(members) = members(e) else {
        return e;
    };
    let Some((_, behind)) = members.split_first() else {
        return e;
    };
    match behind.split_first() {
        Some((second, _)) => second,
        None => e,
    }
}

/// The name of a variable, where an S-expression is a list of a name and of what stands for its sort.
pub fn variable_of(e: &Sexp) -> Option<Name<'_>>
    ensures { option_map symbol_is result ≡ variable_of (members_of (expr e.now)) }
{
    match members(e) {
        Some(members) => variable_in(members),
        None => None,
    }
}

/// The name of a variable of these members.
fn variable_in(members: &[Sexp]) -> Option<Name<'_>>
    ensures { option_map symbol_is result ≡ variable_in (map expr members.now) }
{
    let (name, behind) = members.split_first()?;
    let (_, end) = behind.split_first()?;
    if !end.is_empty() {
        return None;
    }
    symbol(name)
}
