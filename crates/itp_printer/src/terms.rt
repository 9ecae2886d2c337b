// The text of a term below some quantifiers, one form after another.
#![tactic(auto, using(crate::proofs::Together::separating))]

ghost use Rattle.base_limits.specs.Limits.{most_constants};
ghost use Rattle.std.specs.Prelude.{◌≡◌, ◌++◌, ◌≤◌, ◌+◌, codes, false, length, map, OnOk, true};
ghost use Rattle.std.specs.List.{concat};
ghost use Rattle.pri_printer.specs.Printed.{constants_of};
ghost use Rattle.pri_typing.specs.Everywhere.{TermEverywhere, TermsEverywhere};
ghost use Rattle.form_typed.specs.Formula.{expression, expressions_of};
ghost use Rattle.itp_printer.specs.Numbers.{AreNumbers};
ghost use Rattle.itp_printer.specs.Pieces.{arguments_text, printable, separated};
ghost use Rattle.itp_printer.specs.Text.{grouped, joined_text};
ghost use Rattle.itp_printer.specs.TypedText.{term_text, term_texts};

use crate::formulas::put_grouped;
use crate::pieces::{put_comma, put_name, put_plus, put_signed, symbol_name};
use form_typed::TypedTerm;
use linear_term::Memory;
use pri_typing::Problem;
use std::alloc::Global;

/// Puts a term after a text.
#[cycle(printing)]
pub(crate) fn put_term(
    alloc: Global,
    p: &Problem,
    numbers: &[u128],
    depth: usize,
    t: &TypedTerm,
    out: &mut Vec<u8>,
) -> Result<(), Memory>
    requires few { length (constants_of p.now) ≤ most_constants }
    requires numbers { AreNumbers p.now numbers.now }
    requires depth { depth ≤ length numbers.now }
    requires fit { TermEverywhere (printable p.now (length numbers.now)) depth (expression t.now) }
    ensures { OnOk result (out.new.items ≡ out.old.items ++ term_text p.now depth (expression t.now)) }
{
    match t {
        TypedTerm::Number(n) => put_signed(alloc, n, out),
        TypedTerm::Name(x) => put_name(alloc, p, numbers, *x as usize, out),
        TypedTerm::Apply(k, ts) => {
            out.extend_from_slice(symbol_name(p.functions.as_slice(), *k as usize))?;
            put_arguments(alloc, p, numbers, depth, ts.as_slice(), out)
        }
        TypedTerm::Minus(s) => {
            out.push(b'-')?;
            put_grouped_term(alloc, p, numbers, depth, s.get(), out)
        }
        TypedTerm::Sum(ts) => put_sum(alloc, p, numbers, depth, ts.as_slice(), out),
        TypedTerm::Product(s, u) => {
            put_grouped_term(alloc, p, numbers, depth, s.get(), out)?;
            out.push(b'*')?;
            put_grouped_term(alloc, p, numbers, depth, u.get(), out)
        }
        TypedTerm::If(f, s, u) => {
            out.extend_from_slice(b"\\if ")?;
            put_grouped(alloc, p, numbers, depth, f.get(), out)?;
            out.extend_from_slice(b" \\then ")?;
            put_grouped_term(alloc, p, numbers, depth, s.get(), out)?;
            out.extend_from_slice(b" \\else ")?;
            put_grouped_term(alloc, p, numbers, depth, u.get(), out)
        }
        TypedTerm::Abs(s) => {
            out.extend_from_slice(b"\\abs")?;
            put_grouped_term(alloc, p, numbers, depth, s.get(), out)
        }
        TypedTerm::Min(s, u) => {
            out.extend_from_slice(b"\\min(")?;
            put_first(alloc, p, numbers, depth, s.get(), out)?;
            put_last(alloc, p, numbers, depth, u.get(), out)
        }
        TypedTerm::Max(s, u) => {
            out.extend_from_slice(b"\\max(")?;
            put_first(alloc, p, numbers, depth, s.get(), out)?;
            put_last(alloc, p, numbers, depth, u.get(), out)
        }
    }
}

/// Puts a term in parentheses after a text.
#[cycle(printing)]
fn put_grouped_term(
    alloc: Global,
    p: &Problem,
    numbers: &[u128],
    depth: usize,
    t: &TypedTerm,
    out: &mut Vec<u8>,
) -> Result<(), Memory>
    requires few { length (constants_of p.now) ≤ most_constants }
    requires numbers { AreNumbers p.now numbers.now }
    requires depth { depth ≤ length numbers.now }
    requires fit { TermEverywhere (printable p.now (length numbers.now)) depth (expression t.now) }
    ensures { OnOk result (out.new.items ≡ out.old.items ++ grouped (term_text p.now depth (expression t.now))) }
{
    out.push(b'(')?;
    put_term(alloc, p, numbers, depth, t, out)?;
    out.push(b')')?;
    Ok(())
}

/// Puts a term and a comma after a text.
#[cycle(printing)]
fn put_first(
    alloc: Global,
    p: &Problem,
    numbers: &[u128],
    depth: usize,
    t: &TypedTerm,
    out: &mut Vec<u8>,
) -> Result<(), Memory>
    requires few { length (constants_of p.now) ≤ most_constants }
    requires numbers { AreNumbers p.now numbers.now }
    requires depth { depth ≤ length numbers.now }
    requires fit { TermEverywhere (printable p.now (length numbers.now)) depth (expression t.now) }
    ensures { OnOk result (out.new.items ≡ out.old.items ++ (term_text p.now depth (expression t.now) ++ codes ", ")) }
{
    put_term(alloc, p, numbers, depth, t, out)?;
    out.extend_from_slice(b", ")?;
    Ok(())
}

/// Puts a term and a closing parenthesis after a text.
#[cycle(printing)]
fn put_last(
    alloc: Global,
    p: &Problem,
    numbers: &[u128],
    depth: usize,
    t: &TypedTerm,
    out: &mut Vec<u8>,
) -> Result<(), Memory>
    requires few { length (constants_of p.now) ≤ most_constants }
    requires numbers { AreNumbers p.now numbers.now }
    requires depth { depth ≤ length numbers.now }
    requires fit { TermEverywhere (printable p.now (length numbers.now)) depth (expression t.now) }
    ensures { OnOk result (out.new.items ≡ out.old.items ++ (term_text p.now depth (expression t.now) ++ codes ")")) }
{
    put_term(alloc, p, numbers, depth, t, out)?;
    out.push(b')')?;
    Ok(())
}

/// Puts arguments after a symbol.
#[cycle(printing)]
pub(crate) fn put_arguments(
    alloc: Global,
    p: &Problem,
    numbers: &[u128],
    depth: usize,
    terms: &[TypedTerm],
    out: &mut Vec<u8>,
) -> Result<(), Memory>
    requires few { length (constants_of p.now) ≤ most_constants }
    requires numbers { AreNumbers p.now numbers.now }
    requires depth { depth ≤ length numbers.now }
    requires fit { TermsEverywhere (printable p.now (length numbers.now)) depth (expressions_of terms.now) }
    ensures { OnOk result (out.new.items ≡ out.old.items ++ arguments_text (term_texts p.now depth (expressions_of terms.now))) }
{
    if terms.is_empty() {
        return Ok(());
    }
    out.push(b'(')?;
    put_listed(alloc, p, numbers, depth, terms, out)?;
    out.push(b')')?;
    Ok(())
}

/// Puts terms after a text, with a comma between each two.
#[cycle(printing)]
fn put_listed(
    alloc: Global,
    p: &Problem,
    numbers: &[u128],
    depth: usize,
    terms: &[TypedTerm],
    out: &mut Vec<u8>,
) -> Result<(), Memory>
    requires few { length (constants_of p.now) ≤ most_constants }
    requires numbers { AreNumbers p.now numbers.now }
    requires depth { depth ≤ length numbers.now }
    requires fit { TermsEverywhere (printable p.now (length numbers.now)) depth (expressions_of terms.now) }
    ensures { OnOk result (out.new.items ≡ out.old.items ++ separated (codes ", ") false (term_texts p.now depth (expressions_of terms.now))) }
{
    let mut started = false;
    for t in terms {
        put_comma(started, out)?;
        started = true;
        put_term(alloc, p, numbers, depth, t, out)?;
    }
    Ok(())
}

/// Puts a sum after a text.
#[cycle(printing)]
fn put_sum(
    alloc: Global,
    p: &Problem,
    numbers: &[u128],
    depth: usize,
    terms: &[TypedTerm],
    out: &mut Vec<u8>,
) -> Result<(), Memory>
    requires few { length (constants_of p.now) ≤ most_constants }
    requires numbers { AreNumbers p.now numbers.now }
    requires depth { depth ≤ length numbers.now }
    requires fit { TermsEverywhere (printable p.now (length numbers.now)) depth (expressions_of terms.now) }
    ensures { OnOk result (out.new.items ≡ out.old.items ++ joined_text (codes "0") (codes " + ") (term_texts p.now depth (expressions_of terms.now))) }
{
    if terms.is_empty() {
        out.push(b'0')?;
        return Ok(());
    }
    if terms.len() == 1 {
        return put_only_term(alloc, p, numbers, depth, terms, out);
    }
    put_addends(alloc, p, numbers, depth, terms, out)
}

/// Puts terms after a text, one after the other.
#[cycle(printing)]
fn put_only_term(
    alloc: Global,
    p: &Problem,
    numbers: &[u128],
    depth: usize,
    terms: &[TypedTerm],
    out: &mut Vec<u8>,
) -> Result<(), Memory>
    requires few { length (constants_of p.now) ≤ most_constants }
    requires numbers { AreNumbers p.now numbers.now }
    requires depth { depth ≤ length numbers.now }
    requires fit { TermsEverywhere (printable p.now (length numbers.now)) depth (expressions_of terms.now) }
    ensures { OnOk result (out.new.items ≡ out.old.items ++ concat (term_texts p.now depth (expressions_of terms.now))) }
{
    for t in terms {
        put_term(alloc, p, numbers, depth, t, out)?;
    }
    Ok(())
}

/// Puts terms in parentheses after a text, with a plus between each two.
#[cycle(printing)]
fn put_addends(
    alloc: Global,
    p: &Problem,
    numbers: &[u128],
    depth: usize,
    terms: &[TypedTerm],
    out: &mut Vec<u8>,
) -> Result<(), Memory>
    requires few { length (constants_of p.now) ≤ most_constants }
    requires numbers { AreNumbers p.now numbers.now }
    requires depth { depth ≤ length numbers.now }
    requires fit { TermsEverywhere (printable p.now (length numbers.now)) depth (expressions_of terms.now) }
    ensures { OnOk result (out.new.items ≡ out.old.items ++ separated (codes " + ") false (map grouped (term_texts p.now depth (expressions_of terms.now)))) }
{
    let mut started = false;
    for t in terms {
        put_plus(started, out)?;
        started = true;
        put_grouped_term(alloc, p, numbers, depth, t, out)?;
    }
    Ok(())
}
