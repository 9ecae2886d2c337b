// The commands of a script without division.

ghost use Rattle.smt_division.specs.Commands.{any_mentions, body_of, formula_of, is_division, mentions, task_named, task_of, term_by, term_of, undivided, undivided_by, undivided_list, undivided_script};
ghost use Rattle.smt_division.specs.declared.commands.Task.{Task};
ghost use Rattle.smt_lists.specs.Expressions.{and_expr, expr, exprs_of, list};
ghost use Rattle.smt_shorthand.specs.Ranged.{IsRangedExpr};
ghost use Rattle.std.specs.List.{AllByRecursion};
ghost use Rattle.std.specs.Prelude.{◌≡◌, IfOk, map};

use crate::closing::{Reduced, closed, headed, kept};
use crate::copies::copy;
use crate::divisors::text_of;
use crate::forms::{bind_operators, is_word, pair, single};
use crate::made::{one, place, two};
use crate::terms::{closed_all, reduced};
use linear_term::Memory;
use smt_lists::{AtomKind, Sexp};
use sqlite_items::Items;
use std::alloc::Global;

/// What the word of a command asks for.
#[derive(Clone, Copy, Debug, PartialEq, Eq)]
pub enum Task {
    /// `assert`
    Assert,
    /// `check-sat-assuming`
    Assume,
    /// `define-const`
    Constant,
    /// `define-fun`
    Function,
    /// Any other word.
    Other,
}

/// The script without division.
pub fn without_division(alloc: Global, lists: Items<Sexp>) -> Result<Items<Sexp>, Memory>
    ensures exact { IfOk result (λ out. map expr out ≡ undivided_script (map expr lists)) }
    ensures ranged { IfOk result (λ out. AllByRecursion IsRangedExpr (map expr lists) → AllByRecursion IsRangedExpr (map expr out)) }
{
    let mut commands = Items::new(alloc);
    for e in lists.as_slice() {
        commands.push(undivided(alloc, e)?)?;
    }
    Ok(commands)
}

/// A command without division.
fn undivided(alloc: Global, e: &Sexp) -> Result<Sexp, Memory>
    ensures { IfOk result (λ x. expr x ≡ undivided (expr e.now)) }
{
    if !mentions(e) {
        return copy(alloc, e);
    }
    undivided_list(alloc, e)
}

/// A command without division, where it is a list.
fn undivided_list(alloc: Global, e: &Sexp) -> Result<Sexp, Memory>
    ensures { IfOk result (λ x. expr x ≡ undivided_list (expr e.now)) }
{
    match e {
        Sexp::Atom(_) => copy(alloc, e),
        Sexp::List(at, members) => {
            let Some((head, rest)) = members.as_slice().split_first() else {
                return copy(alloc, e);
            };
            undivided_members(alloc, *at, head, rest)
        }
    }
}

/// A command of these members without division.
fn undivided_members(alloc: Global, at: u64, head: &Sexp, rest: &[Sexp]) -> Result<Sexp, Memory>
    ensures { IfOk result (λ x. expr x ≡ undivided_by (task_of (expr head.now)) at (expr head.now) (exprs_of rest.now)) }
{
    match task_of(head) {
        Task::Assert => assertion(alloc, at, head, rest),
        Task::Assume => assumption_list(alloc, at, head, rest),
        Task::Constant => constant(alloc, at, head, rest),
        Task::Function => function(alloc, at, head, rest),
        Task::Other => kept(alloc, at, head, rest),
    }
}

/// `assert` with these after it.
fn assertion(alloc: Global, at: u64, head: &Sexp, rest: &[Sexp]) -> Result<Sexp, Memory>
    ensures { IfOk result (λ x. expr x ≡ undivided_by Task.Assert at (expr head.now) (exprs_of rest.now)) }
{
    let Some(term) = single(rest) else {
        return kept(alloc, at, head, rest);
    };
    let formula = formula_of(alloc, term)?;
    headed(alloc, at, head, one(alloc, formula)?)
}

/// `check-sat-assuming` with these after it.
fn assumption_list(alloc: Global, at: u64, head: &Sexp, rest: &[Sexp]) -> Result<Sexp, Memory>
    ensures { IfOk result (λ x. expr x ≡ undivided_by Task.Assume at (expr head.now) (exprs_of rest.now)) }
{
    let Some(terms) = single(rest) else {
        return kept(alloc, at, head, rest);
    };
    match terms {
        Sexp::Atom(_) => kept(alloc, at, head, rest),
        Sexp::List(inner, members) => {
            let formulas = closed_all(alloc, members.as_slice())?;
            headed(alloc, at, head, one(alloc, Sexp::List(*inner, formulas))?)
        }
    }
}

/// `define-const` with these after it.
fn constant(alloc: Global, at: u64, head: &Sexp, rest: &[Sexp]) -> Result<Sexp, Memory>
    ensures { IfOk result (λ x. expr x ≡ undivided_by Task.Constant at (expr head.now) (exprs_of rest.now)) }
{
    let Some((name, behind)) = rest.split_first() else {
        return kept(alloc, at, head, rest);
    };
    let Some((sort, term)) = pair(behind) else {
        return kept(alloc, at, head, rest);
    };
    let mut members = two(alloc, copy(alloc, name)?, copy(alloc, sort)?)?;
    members.push(term_of(alloc, sort, term)?)?;
    headed(alloc, at, head, members)
}

/// `define-fun` with these after it.
fn function(alloc: Global, at: u64, head: &Sexp, rest: &[Sexp]) -> Result<Sexp, Memory>
    ensures { IfOk result (λ x. expr x ≡ undivided_by Task.Function at (expr head.now) (exprs_of rest.now)) }
{
    let Some((name, behind)) = rest.split_first() else {
        return kept(alloc, at, head, rest);
    };
    let Some((arguments, last)) = behind.split_first() else {
        return kept(alloc, at, head, rest);
    };
    let Some((sort, term)) = pair(last) else {
        return kept(alloc, at, head, rest);
    };
    let term = body_of(alloc, arguments, sort, term)?;
    let mut members = two(alloc, copy(alloc, name)?, copy(alloc, arguments)?)?;
    members.push(copy(alloc, sort)?)?;
    members.push(term)?;
    headed(alloc, at, head, members)
}

/// The term of a definition with these arguments and of this sort.
fn body_of(alloc: Global, arguments: &Sexp, sort: &Sexp, term: &Sexp) -> Result<Sexp, Memory>
    ensures { IfOk result (λ x. expr x ≡ body_of (expr arguments.now) (expr sort.now) (expr term.now)) }
{
    match arguments {
        Sexp::Atom(_) => copy(alloc, term),
        Sexp::List(_, members) => {
            if bind_operators(members.as_slice()) {
                return copy(alloc, term);
            }
            term_of(alloc, sort, term)
        }
    }
}

/// The term of a definition of this sort.
fn term_of(alloc: Global, sort: &Sexp, term: &Sexp) -> Result<Sexp, Memory>
    ensures { IfOk result (λ x. expr x ≡ term_of (expr sort.now) (expr term.now)) }
{
    if is_word(b"Bool", sort) {
        return formula_of(alloc, term);
    }
    let Reduced {
        term: value,
        variables,
        conditions: _,
    } = reduced(alloc, term)?;
    if variables.is_empty() {
        return Ok(value);
    }
    copy(alloc, term)
}

/// The formula without division that an S-expression is.
fn formula_of(alloc: Global, term: &Sexp) -> Result<Sexp, Memory>
    ensures { IfOk result (λ x. expr x ≡ formula_of (expr term.now)) }
{
    let formula = reduced(alloc, term)?;
    closed(alloc, place(term), formula)
}

/// Whether division stands in an expression.
#[cycle(mentions)]
fn mentions(e: &Sexp) -> bool
    ensures { result ≡ mentions (expr e.now) }
{
    match e {
        Sexp::Atom(a) => match &a.kind {
            AtomKind::Symbol(text) => is_division(text.as_slice()),
            AtomKind::Numeral(_)
            | AtomKind::LargeNumeral
            | AtomKind::Decimal
            | AtomKind::Hash
            | AtomKind::StringLiteral(_)
            | AtomKind::Keyword(_) => false,
        },
        Sexp::List(_, members) => any_mentions(members.as_slice()),
    }
}

/// Whether it stands in one of several.
#[cycle(mentions)]
fn any_mentions(es: &[Sexp]) -> bool
    ensures { result ≡ any_mentions (exprs_of es.now) }
{
    for e in es {
        if mentions(e) {
            return true;
        }
    }
    false
}

/// Whether division is written with a symbol.
fn is_division(text: &[u8]) -> bool
    ensures { result ≡ is_division text.now }
{
    text == b"div".as_slice() || text == b"mod".as_slice() || text == b"divisible".as_slice()
}

/// What a symbol at the head of a command asks for.
fn task_named(text: &[u8]) -> Task
    ensures { result ≡ task_named text.now }
{
    if text == b"assert".as_slice() {
        Task::Assert
    } else if text == b"check-sat-assuming".as_slice() {
        Task::Assume
    } else if text == b"define-const".as_slice() {
        Task::Constant
    } else if text == b"define-fun".as_slice() {
        Task::Function
    } else {
        Task::Other
    }
}

/// What the head of a command asks for.
fn task_of(head: &Sexp) -> Task
    ensures { result ≡ task_of (expr head.now) }
{
    match text_of(head) {
        Some(text) => task_named(text),
        None => Task::Other,
    }
}
