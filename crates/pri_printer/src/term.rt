// The text of a linear term over the constants of a problem.

ghost use Rattle.std.specs.Prelude.{◌≡◌, ◌++◌, ◌<◌, codes, cond, int_lt, length, map, OnOk, pos, slice_index_or, unsigned_abs, [], ◌∷◌};
ghost use Rattle.std.specs.Fmt.{decimal};
ghost use Rattle.std.specs.Ordering.{int_eq};
ghost use Rattle.pri_printer.specs.Names.{IsVariableBelow, PairNames};
ghost use Rattle.pri_printer.specs.Printed.{constants_of};
ghost use Rattle.pri_printer.specs.Summands.{constant as constant_summand, monomial, times};
ghost use Rattle.pri_printer.specs.Text.{added_texts, adding_text, later_text, summand_text, term_text};

use linear_term::{Memory, Term};
use pri_typing::Problem;
use std::alloc::Global;

/// The name of a constant.
fn constant_name(p: &Problem, x: usize) -> &[u8]
    requires { x < length (constants_of p.now) }
    ensures { result.now ≡ slice_index_or (constants_of p.now) x [] }
{
    let existentials = p.existentials.as_slice();
    if x < existentials.len() {
        existentials[x].as_slice()
    } else {
        p.universals.as_slice()[x - existentials.len()].as_slice()
    }
}

/// Puts the digits of a number after a text.
pub(crate) fn put_number(alloc: Global, n: u128, out: &mut Vec<u8>) -> Result<(), Memory>
    ensures { OnOk result (out.new.items ≡ out.old.items ++ decimal n) }
{
    let digits = n.to_string(alloc)?;
    out.extend_from_slice(digits.as_bytes())?;
    Ok(())
}

/// Puts ` - ` or ` + ` after a text.
fn put_sign(minus: bool, out: &mut Vec<u8>) -> Result<(), Memory>
    ensures { OnOk result (out.new.items ≡ out.old.items ++ adding_text minus) }
{
    if minus {
        out.extend_from_slice(b" - ")?;
    } else {
        out.extend_from_slice(b" + ")?;
    }
    Ok(())
}

/// Puts a number times a constant after a text.
fn put_monomial(
    alloc: Global,
    p: &Problem,
    n: u128,
    x: usize,
    out: &mut Vec<u8>,
) -> Result<(), Memory>
    requires { x < length (constants_of p.now) }
    ensures { OnOk result (out.new.items ≡ out.old.items ++ summand_text (constants_of p.now) (times n x)) }
{
    if n != 1 {
        put_number(alloc, n, out)?;
        out.extend_from_slice(b"*")?;
    }
    out.extend_from_slice(constant_name(p, x))?;
    Ok(())
}

/// Puts a monomial without its sign after a text.
fn put_pair(alloc: Global, p: &Problem, pair: &(u32, i128), out: &mut Vec<u8>) -> Result<(), Memory>
    requires { pair.now.0 < length (constants_of p.now) }
    ensures { OnOk result (out.new.items ≡ out.old.items ++ summand_text (constants_of p.now) (times (unsigned_abs pair.now.1) pair.now.0)) }
{
    let (x, k) = *pair;
    put_monomial(alloc, p, k.unsigned_abs(), x as usize, out)
}

fn is_subtracted(pair: &(u32, i128)) -> bool
    ensures { result ≡ int_lt pair.now.1 (pos 0) }
{
    pair.1 < 0
}

/// Puts the later monomials of a sum after a text.
fn put_pairs(
    alloc: Global,
    p: &Problem,
    pairs: &[(u32, i128)],
    out: &mut Vec<u8>,
) -> Result<(), Memory>
    requires { PairNames (IsVariableBelow (length (constants_of p.now))) pairs.now }
    ensures { OnOk result (out.new.items ≡ out.old.items ++ added_texts (map (later_text (constants_of p.now)) (map monomial pairs.now))) }
{
    for pair in pairs {
        put_sign(is_subtracted(pair), out)?;
        put_pair(alloc, p, pair, out)?;
    }
    Ok(())
}

fn put_minus(minus: bool, out: &mut Vec<u8>) -> Result<(), Memory>
    ensures { OnOk result (out.new.items ≡ out.old.items ++ cond minus (codes "-") []) }
{
    if minus {
        out.push(b'-')?;
    }
    Ok(())
}

/// Puts a constant that is not 0, with its sign, after a sum.
fn put_constant(alloc: Global, p: &Problem, t: &Term, out: &mut Vec<u8>) -> Result<(), Memory>
    ensures { OnOk result (out.new.items ≡ out.old.items
        ++ added_texts (map (later_text (constants_of p.now)) (cond (int_eq t.now.constant (pos 0)) [] (constant_summand t.now.constant ∷ [])))) }
{
    let k = t.constant();
    if k != 0 {
        put_sign(k < 0, out)?;
        put_number(alloc, k.unsigned_abs(), out)?;
    }
    Ok(())
}

/// Puts the constant alone after a text.
fn put_alone(alloc: Global, t: &Term, out: &mut Vec<u8>) -> Result<(), Memory>
    ensures { OnOk result (out.new.items ≡ out.old.items ++ (cond (int_lt t.now.constant (pos 0)) (codes "-") [] ++ decimal (unsigned_abs t.now.constant))) }
{
    let k = t.constant();
    put_minus(k < 0, out)?;
    put_number(alloc, k.unsigned_abs(), out)
}

/// Puts a term over the constants of the problem after a text.
pub(crate) fn put_term(
    alloc: Global,
    p: &Problem,
    t: &Term,
    out: &mut Vec<u8>,
) -> Result<(), Memory>
    requires { PairNames (IsVariableBelow (length (constants_of p.now))) t.now.pairs }
    ensures { OnOk result (out.new.items ≡ out.old.items ++ term_text (constants_of p.now) t.now) }
{
    let Some((first, more)) = t.pairs().split_first() else {
        return put_alone(alloc, t, out);
    };
    put_minus(is_subtracted(first), out)?;
    put_pair(alloc, p, first, out)?;
    put_pairs(alloc, p, more, out)?;
    put_constant(alloc, p, t, out)
}
