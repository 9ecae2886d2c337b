// Words, written.

ghost use Rattle.std.specs.Fmt.{decimal};
ghost use Rattle.std.specs.Prelude.{◌≡◌, ◌++◌, int_lt, unsigned_abs, pos, map, true, OnOk};
ghost use Rattle.clause_words.specs.Spelling.{integer_text};
ghost use Rattle.clause_words.specs.Terms.{constant_parts, factor_text, monomial_part, part_text, parts_text, sign_text, term_text};
ghost use Rattle.clause_words.specs.declared.terms.Part.TheVariants as p;

use linear_term::{Memory, Term};
use proof_tokens::put_number as put_labelled;
use std::alloc::Global;

/// Puts a number after a text.
pub fn put_number(alloc: Global, n: u32, out: &mut Vec<u8>) -> Result<(), Memory>
    ensures { OnOk result (out.new.items ≡ out.old.items ++ decimal n) }
{
    put_labelled(alloc, b"", u128::from(n), out)
}

/// Puts an integer after a text.
pub fn put_integer(alloc: Global, k: i128, out: &mut Vec<u8>) -> Result<(), Memory>
    ensures { OnOk result (out.new.items ≡ out.old.items ++ integer_text k) }
{
    let sign = if k < 0 {
        b"-".as_slice()
    } else {
        b"".as_slice()
    };
    put_labelled(alloc, sign, k.unsigned_abs(), out)
}

/// Puts the sign before a part of a sum after a text.
fn put_sign(first: bool, minus: bool, out: &mut Vec<u8>) -> Result<(), Memory>
    ensures { OnOk result (out.new.items ≡ out.old.items ++ sign_text first minus) }
{
    let sign = match (first, minus) {
        (true, true) => b"-".as_slice(),
        (true, false) => b"".as_slice(),
        (false, true) => b"-".as_slice(),
        (false, false) => b"+".as_slice(),
    };
    out.extend_from_slice(sign)?;
    Ok(())
}

/// Puts a name with its coefficient after a text.
fn put_monomial(
    alloc: Global,
    first: bool,
    pair: (u32, i128),
    out: &mut Vec<u8>,
) -> Result<(), Memory>
    ensures { OnOk result (out.new.items ≡ out.old.items ++ (sign_text first (monomial_part pair).0 ++ part_text (monomial_part pair).1)) }
{
    let size = pair.1.unsigned_abs();
    put_sign(first, pair.1 < 0, out)?;
    if size != 1 {
        put_labelled(alloc, b"", size, out)?;
        out.extend_from_slice(b"*")?;
    }
    put_labelled(alloc, b"c", u128::from(pair.0), out)
}

/// Puts a constant after a text.
fn put_constant(alloc: Global, first: bool, k: i128, out: &mut Vec<u8>) -> Result<(), Memory>
    ensures { OnOk result (out.new.items ≡ out.old.items ++ (sign_text first (int_lt k (pos 0)) ++ decimal (unsigned_abs k))) }
{
    put_sign(first, k < 0, out)?;
    put_labelled(alloc, b"", k.unsigned_abs(), out)
}

/// Puts names with their coefficients after a text.
fn put_monomials(alloc: Global, pairs: &[(u32, i128)], out: &mut Vec<u8>) -> Result<(), Memory>
    ensures { OnOk result (out.new.items ≡ out.old.items ++ parts_text true (map monomial_part pairs.now)) }
{
    let mut first = true;
    for pair in pairs {
        put_monomial(alloc, first, *pair, out)?;
        first = false;
    }
    Ok(())
}

/// Puts a linear term after a text.
#[tactic(auto, using(crate::proofs::Written::term_alone, crate::proofs::Written::term_more, crate::proofs::Written::term_zero))]
pub fn put_term(alloc: Global, term: &Term, out: &mut Vec<u8>) -> Result<(), Memory>
    ensures { OnOk result (out.new.items ≡ out.old.items ++ term_text term.now) }
{
    put_monomials(alloc, term.pairs(), out)?;
    if term.len() == 0 {
        return put_constant(alloc, true, term.constant(), out);
    }
    if term.constant() != 0 {
        return put_constant(alloc, false, term.constant(), out);
    }
    Ok(())
}
