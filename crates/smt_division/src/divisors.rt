// The numerals by which a script may divide: as numerals, or built of such by `+`, `-` and `*`.

ghost use Rattle.linear_term.specs.Range.{InRange};
ghost use Rattle.smt_division.specs.Divisors.{applied, combined, folded, greatest_remainder, sign_named, sign_of, text_of, total, values, within};
ghost use Rattle.smt_lists.specs.Expressions.{atom, expr, exprs_of};
ghost use Rattle.std.specs.Option.{option_map, IfSome};
ghost use Rattle.std.specs.Prelude.{◌≡◌, IfOk, MatchOption, None, Some, ◌∷◌};

use linear_term::{Memory, in_range};
use smt_lists::{Atom, AtomKind, Sexp};
use sqlite_items::Items;
use std::alloc::Global;

/// What numerals are put together by.
#[derive(Clone, Copy, Debug, PartialEq, Eq)]
pub enum Sign {
    Plus,
    Minus,
    Times,
}

/// The text of the symbol that an expression is.
pub fn text_of(e: &Sexp) -> Option<&[u8]>
    ensures { MatchOption result (text_of (expr e.now) ≡ None) (λ x. text_of (expr e.now) ≡ Some x.now) }
{
    match e {
        Sexp::Atom(a) => match &a.kind {
            AtomKind::Symbol(text) => Some(text.as_slice()),
            AtomKind::Numeral(_)
            | AtomKind::LargeNumeral
            | AtomKind::Decimal
            | AtomKind::Hash
            | AtomKind::StringLiteral(_)
            | AtomKind::Keyword(_) => None,
        },
        Sexp::List(_, _) => None,
    }
}

/// The sign of this name.
fn sign_named(text: &[u8]) -> Option<Sign>
    ensures { result ≡ sign_named text.now }
{
    if text == b"+".as_slice() {
        Some(Sign::Plus)
    } else if text == b"-".as_slice() {
        Some(Sign::Minus)
    } else if text == b"*".as_slice() {
        Some(Sign::Times)
    } else {
        None
    }
}

/// The sign that an expression is.
fn sign_of(e: &Sexp) -> Option<Sign>
    ensures { result ≡ sign_of (expr e.now) }
{
    match text_of(e) {
        Some(text) => sign_named(text),
        None => None,
    }
}

/// The number, where it is in the range of coefficients.
fn within(n: i128) -> Option<i128>
    ensures { result ≡ within n }
{
    if in_range(n) { Some(n) } else { None }
}

/// A sum, a difference or a product, where it is in the range.
fn applied(sign: Sign, a: i128, b: i128) -> Option<i128>
    ensures { result ≡ within (applied sign a b) }
{
    let value = match sign {
        Sign::Plus => a.checked_add(b),
        Sign::Minus => a.checked_sub(b),
        Sign::Times => a.checked_mul(b),
    };
    match value {
        Some(n) => within(n),
        None => None,
    }
}

/// The value of a sign at more numbers after one.
fn total(sign: Sign, first: i128, more: &[i128]) -> Option<i128>
    ensures { result ≡ total sign first more.now }
{
    let mut value = first;
    for n in more {
        let Some(next) = applied(sign, value, *n) else {
            return None;
        };
        value = next;
    }
    Some(value)
}

/// The value of a sign at numbers: one at least.
fn combined(sign: Sign, numbers: &[i128]) -> Option<i128>
    ensures { result ≡ combined sign numbers.now }
{
    let Some((first, more)) = numbers.split_first() else {
        return None;
    };
    if more.is_empty() && sign == Sign::Minus {
        return applied(Sign::Minus, 0, *first);
    }
    total(sign, *first, more)
}

/// The value of an expression built of numerals, as it is written.
#[cycle(divisors)]
fn folded(alloc: Global, e: &Sexp) -> Result<Option<i128>, Memory>
    ensures { IfOk result (λ v. v ≡ folded (expr e.now)) }
{
    match e {
        Sexp::Atom(a) => Ok(numeral(a)),
        Sexp::List(_, members) => {
            let Some((head, rest)) = members.as_slice().split_first() else {
                return Ok(None);
            };
            let Some(sign) = sign_of(head) else {
                return Ok(None);
            };
            let Some(numbers) = values(alloc, rest)? else {
                return Ok(None);
            };
            Ok(combined(sign, numbers.as_slice()))
        }
    }
}

/// The values of expressions, where all have one.
#[cycle(divisors)]
fn values(alloc: Global, es: &[Sexp]) -> Result<Option<Items<i128>>, Memory>
    ensures { IfOk result (λ vs. vs ≡ values (exprs_of es.now)) }
{
    let mut numbers = Items::new(alloc);
    for e in es {
        let Some(n) = folded(alloc, e)? else {
            return Ok(None);
        };
        numbers.push(n)?;
    }
    Ok(Some(numbers))
}

/// The numeral that an atom is, where it is in the range.
fn numeral(a: &Atom) -> Option<i128>
    ensures { result ≡ folded (atom a.now) }
{
    match &a.kind {
        AtomKind::Numeral(n) => within(*n),
        AtomKind::LargeNumeral
        | AtomKind::Decimal
        | AtomKind::Hash
        | AtomKind::StringLiteral(_)
        | AtomKind::Keyword(_)
        | AtomKind::Symbol(_) => None,
    }
}

/// The greatest remainder by a divisor n, |n| − 1. Returns None if the divisor is no numeral, or 0.
pub fn greatest_remainder(alloc: Global, n: &Sexp) -> Result<Option<i128>, Memory>
    ensures { IfOk result (λ r. r ≡ greatest_remainder (expr n.now)) }
{
    let Some(value) = folded(alloc, n)? else {
        return Ok(None);
    };
    if value == 0 {
        return Ok(None);
    }
    if !in_range(value) {
        return Ok(None);
    }
    Ok(Some(value.abs() - 1))
}
