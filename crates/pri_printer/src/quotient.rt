// The name of the quotient in a printed divisibility: the first of k0, k1, .. that no symbol of the problem has.

ghost use Rattle.std.specs.Prelude.{◌≡◌, IfOk, map};
ghost use Rattle.pri_printer.specs.Quotient.{quotient_name, quotient_number};
ghost use Rattle.base_texts.specs.Texts.{is_among, is_text};
ghost use Rattle.pri_typing.specs.WellFormed.{names_of_symbols};

use crate::term::put_number;
use linear_term::Memory;
use pri_typing::{Problem, Symbol};
use sqlite_items::Items;
use std::alloc::Global;

fn is_same(a: &[u8], b: &[u8]) -> bool
    ensures { result ≡ is_text a.now b.now }
{
    a == b
}

fn is_listed(names: &[Items<u8>], name: &[u8]) -> bool
    ensures { result ≡ is_among name.now names.now }
{
    for other in names {
        if is_same(name, other.as_slice()) {
            return true;
        }
    }
    false
}

fn is_symbol(symbols: &[Symbol], name: &[u8]) -> bool
    ensures { result ≡ is_among name.now (map (λ y. y.name) symbols.now) }
{
    for symbol in symbols {
        if is_same(name, symbol.name.as_slice()) {
            return true;
        }
    }
    false
}

/// Whether a symbol of the problem has this name.
#[tactic(auto, using(crate::proofs::Searching::among))]
pub fn is_taken(p: &Problem, name: &[u8]) -> bool
    ensures { result ≡ is_among name.now (names_of_symbols p.now) }
{
    is_listed(p.existentials.as_slice(), name)
        || is_listed(p.universals.as_slice(), name)
        || is_symbol(p.functions.as_slice(), name)
        || is_symbol(p.predicates.as_slice(), name)
}

fn quotient_text(alloc: Global, n: u32) -> Result<Vec<u8>, Memory>
    ensures { IfOk result (λ v. v.items ≡ quotient_name n) }
{
    let mut text = Vec::from_slice(alloc, b"k")?;
    put_number(alloc, u128::from(n), &mut text)?;
    Ok(text)
}

/// The first name of a quotient that no symbol has.
pub(crate) fn free_text(alloc: Global, p: &Problem) -> Result<Vec<u8>, Memory>
    ensures { IfOk result (λ v. v.items ≡ quotient_name (quotient_number p.now)) }
{
    for n in 0..1000u32 {
        let text = quotient_text(alloc, n)?;
        if !is_taken(p, &text) {
            return Ok(text);
        }
    }
    quotient_text(alloc, 1000)
}
