// The expressions that are made.

ghost use Rattle.smt_division.specs.Made.{condition, multiple, number, quotient, quotient_name, symbol, use_of, variable};
ghost use Rattle.smt_lists.specs.Expressions.{expr, exprs_of, list, place_of};
ghost use Rattle.std.specs.Prelude.{◌≡◌, ◌++◌, ◌∷◌, [], IfOk, map, codes};

use crate::copies::copy;
use linear_term::Memory;
use smt_lists::{Atom, AtomKind, Sexp};
use sqlite_items::Items;
use std::alloc::Global;

/// A symbol.
pub fn symbol(alloc: Global, at: u64, text: &[u8]) -> Result<Sexp, Memory>
    ensures { IfOk result (λ e. expr e ≡ symbol at text.now) }
{
    let kind = AtomKind::Symbol(Items::from_slice(alloc, text)?);
    Ok(Sexp::Atom(Atom { at, kind }))
}

/// A numeral.
fn number(at: u64, n: i128) -> Sexp
    ensures { expr result ≡ number at n }
{
    Sexp::Atom(Atom {
        at,
        kind: AtomKind::Numeral(n),
    })
}

/// The offset of the first byte.
pub fn place(e: &Sexp) -> u64
    ensures { result ≡ place_of (expr e.now) }
{
    match e {
        Sexp::Atom(a) => a.at,
        Sexp::List(at, _) => *at,
    }
}

/// A list of one expression.
pub fn one(alloc: Global, e: Sexp) -> Result<Items<Sexp>, Memory>
    ensures { IfOk result (λ es. es ≡ e ∷ []) }
{
    let mut es = Items::new(alloc);
    es.push(e)?;
    Ok(es)
}

/// A list of two expressions.
pub fn two(alloc: Global, first: Sexp, second: Sexp) -> Result<Items<Sexp>, Memory>
    ensures { IfOk result (λ es. es ≡ first ∷ second ∷ []) }
{
    let mut es = one(alloc, first)?;
    es.push(second)?;
    Ok(es)
}

/// A symbol at its arguments.
pub fn use_of(alloc: Global, at: u64, text: &[u8], arguments: Items<Sexp>) -> Result<Sexp, Memory>
    ensures { IfOk result (λ e. expr e ≡ use_of at text.now (map expr arguments)) }
{
    let mut members = one(alloc, symbol(alloc, at, text)?)?;
    members.append(arguments)?;
    Ok(Sexp::List(at, members))
}

/// The quotient by a divisor, as a term.
pub fn quotient(alloc: Global, at: u64, n: &Sexp) -> Result<Sexp, Memory>
    ensures { IfOk result (λ e. expr e ≡ quotient at (expr n.now)) }
{
    let mut name = Vec::from_slice(alloc, b"q|")?;
    let offset = place(n).to_string(alloc)?;
    name.extend_from_slice(offset.as_bytes())?;
    symbol(alloc, at, name.as_slice())
}

/// The quotient by a divisor, as a variable of a quantifier.
pub fn variable(alloc: Global, at: u64, n: &Sexp) -> Result<Sexp, Memory>
    ensures { IfOk result (λ e. expr e ≡ variable at (expr n.now)) }
{
    let name = quotient(alloc, at, n)?;
    let sort = symbol(alloc, at, b"Int")?;
    Ok(Sexp::List(at, two(alloc, name, sort)?))
}

/// A divisor times the quotient by it.
pub fn multiple(alloc: Global, at: u64, n: &Sexp) -> Result<Sexp, Memory>
    ensures { IfOk result (λ e. expr e ≡ multiple at (expr n.now)) }
{
    let factors = two(alloc, copy(alloc, n)?, quotient(alloc, at, n)?)?;
    use_of(alloc, at, b"*", factors)
}

/// What the quotient of a term by a divisor with this greatest remainder is.
pub fn condition(alloc: Global, at: u64, t: Sexp, n: &Sexp, greatest: i128) -> Result<Sexp, Memory>
    ensures { IfOk result (λ e. expr e ≡ condition at (expr t) (expr n.now) greatest) }
{
    let parts = two(alloc, multiple(alloc, at, n)?, number(at, greatest))?;
    let mut chain = two(alloc, multiple(alloc, at, n)?, t)?;
    chain.push(use_of(alloc, at, b"+", parts)?)?;
    use_of(alloc, at, b"<=", chain)
}
