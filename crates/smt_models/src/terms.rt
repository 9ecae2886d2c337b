// The texts of integers, truths and parameters, as terms of SMT-LIB.

ghost use Rattle.smt_models.specs.Printed.{text, texts};
ghost use Rattle.smt_models.specs.Terms.{all_terms, argument, equation, equations, integer_term, truth_term};
ghost use Rattle.smt_terms.specs.Term.{phrases};
ghost use Rattle.std.specs.Fmt.{decimal};
ghost use Rattle.std.specs.Prelude.{◌≡◌, ◌++◌, ◌<◌, ◌^◌, length, OnOk};

use linear_term::Memory;
use std::alloc::Global;

/// Puts a natural number after a text.
fn put_decimal(alloc: Global, number: u128, out: &mut Vec<u8>) -> Result<(), Memory>
    ensures { OnOk result (out.new.items ≡ out.old.items ++ decimal number) }
{
    let digits = number.to_string(alloc)?;
    out.extend_from_slice(digits.as_bytes())?;
    Ok(())
}

/// Puts an integer after a text: `3` or `(- 3)`.
pub(crate) fn put_integer(alloc: Global, value: &i128, out: &mut Vec<u8>) -> Result<(), Memory>
    ensures { OnOk result (out.new.items ≡ out.old.items ++ text (integer_term value.now)) }
{
    let value = *value;
    if value >= 0 {
        return put_decimal(alloc, value.unsigned_abs(), out);
    }
    out.extend_from_slice(b"(- ")?;
    put_decimal(alloc, value.unsigned_abs(), out)?;
    out.extend_from_slice(b")")?;
    Ok(())
}

/// Puts `true` or `false` after a text.
pub(crate) fn put_truth(truth: bool, out: &mut Vec<u8>) -> Result<(), Memory>
    ensures { OnOk result (out.new.items ≡ out.old.items ++ text (truth_term truth)) }
{
    if truth {
        out.extend_from_slice(b"true")?;
    } else {
        out.extend_from_slice(b"false")?;
    }
    Ok(())
}

/// Puts the name of the parameter of this number after a text: `x!0`.
pub(crate) fn put_argument(alloc: Global, number: usize, out: &mut Vec<u8>) -> Result<(), Memory>
    ensures { OnOk result (out.new.items ≡ out.old.items ++ argument number) }
{
    out.extend_from_slice(b"x!")?;
    put_decimal(alloc, number as u128, out)
}

/// Puts `(= x!0 1)` after a text.
fn put_equation(alloc: Global, number: usize, value: &i128, out: &mut Vec<u8>) -> Result<(), Memory>
    ensures { OnOk result (out.new.items ≡ out.old.items ++ text (equation number value.now)) }
{
    out.extend_from_slice(b"(= ")?;
    put_argument(alloc, number, out)?;
    out.extend_from_slice(b" ")?;
    put_integer(alloc, value, out)?;
    out.extend_from_slice(b")")?;
    Ok(())
}

/// Puts the equations of the parameters with these integers after a text, each after a blank.
fn put_equations(alloc: Global, at: &[i128], out: &mut Vec<u8>) -> Result<(), Memory>
    ensures { OnOk result (out.new.items ≡ out.old.items ++ texts (phrases (equations 0 at.now))) }
{
    for i in 0..at.len() {
        out.extend_from_slice(b" ")?;
        put_equation(alloc, i, &at[i], out)?;
    }
    Ok(())
}

/// Puts after a text that the parameters are these integers.
pub(crate) fn put_place(alloc: Global, at: &[i128], out: &mut Vec<u8>) -> Result<(), Memory>
    ensures { OnOk result (out.new.items ≡ out.old.items ++ text (all_terms (equations 0 at.now))) }
{
    let Some((first, more)) = at.split_first() else {
        return put_truth(true, out);
    };
    if more.is_empty() {
        return put_equation(alloc, 0, first, out);
    }
    out.extend_from_slice(b"(and")?;
    put_equations(alloc, at, out)?;
    out.extend_from_slice(b")")?;
    Ok(())
}
