// The text of a counterexample to a problem.

ghost use Rattle.pri_printer.specs.Counterexample.{applied_text, counterexample_text, lines_text, name_of, row_text, truth_text};
ghost use Rattle.pri_printer.specs.Text.{behind_each, listed_text, value_texts};
ghost use Rattle.std.specs.Fmt.{signed_decimal};
ghost use Rattle.std.specs.List.{slice_get};
ghost use Rattle.std.specs.Prelude.{◌≡◌, ◌++◌, codes, IfOk, length, map, OnOk};

use super::solution::put_value;
use form_typed::{Table, TruthRow, ValueRow};
use linear_term::Memory;
use pri_typing::{Problem, Symbol};
use sqlite_items::Items;
use std::alloc::Global;

/// Puts an integer after a text.
pub fn put_integer(alloc: Global, value: &i128, out: &mut Vec<u8>) -> Result<(), Memory>
    ensures { OnOk result (out.new.items ≡ out.old.items ++ signed_decimal value.now) }
{
    let digits = value.to_string(alloc)?;
    out.extend_from_slice(digits.as_bytes())?;
    Ok(())
}

/// Puts the later integers of a list after a text.
fn put_later(alloc: Global, values: &[i128], out: &mut Vec<u8>) -> Result<(), Memory>
    ensures { OnOk result (out.new.items ≡ out.old.items ++ behind_each (codes ", ") (map signed_decimal values.now)) }
{
    for value in values {
        out.extend_from_slice(b", ")?;
        put_integer(alloc, value, out)?;
    }
    Ok(())
}

/// Puts a symbol at these integers after a text.
pub fn put_applied(alloc: Global, name: &[u8], at: &[i128], out: &mut Vec<u8>) -> Result<(), Memory>
    ensures { OnOk result (out.new.items ≡ out.old.items ++ applied_text name.now at.now) }
{
    out.extend_from_slice(name)?;
    let Some((first, more)) = at.split_first() else {
        return Ok(());
    };
    out.extend_from_slice(b"(")?;
    put_integer(alloc, first, out)?;
    put_later(alloc, more, out)?;
    out.extend_from_slice(b")")?;
    Ok(())
}

/// Puts a line for each constant with its value after a text.
pub fn put_constants(
    alloc: Global,
    names: &[Items<u8>],
    values: &[i128],
    out: &mut Vec<u8>,
) -> Result<(), Memory>
    requires { length names.now ≡ length values.now }
    ensures { OnOk result (out.new.items ≡ out.old.items ++ lines_text (value_texts names.now values.now)) }
{
    for i in 0..names.len() {
        put_value(alloc, names[i].as_slice(), &values[i], out)?;
        out.extend_from_slice(b"\n")?;
    }
    Ok(())
}

/// The name of the symbol with this number; empty where there is none.
fn symbol_name(symbols: &[Symbol], id: u32) -> &[u8]
    ensures { result.now ≡ name_of (slice_get symbols.now id) }
{
    match symbols.get(id as usize) {
        Some(symbol) => symbol.name.as_slice(),
        None => b"",
    }
}

/// Puts a line for each row of a predicate after a text.
fn put_truths(
    alloc: Global,
    p: &Problem,
    rows: &[TruthRow],
    out: &mut Vec<u8>,
) -> Result<(), Memory>
    ensures { OnOk result (out.new.items ≡ out.old.items ++ lines_text (map (truth_text p.now.predicates) rows.now)) }
{
    let symbols = p.predicates.as_slice();
    for row in rows {
        let name = symbol_name(symbols, row.id);
        put_applied(alloc, name, row.at.as_slice(), out)?;
        out.extend_from_slice(b"\n")?;
    }
    Ok(())
}

/// Puts a line for each row of a function after a text.
fn put_values(
    alloc: Global,
    p: &Problem,
    rows: &[ValueRow],
    out: &mut Vec<u8>,
) -> Result<(), Memory>
    ensures { OnOk result (out.new.items ≡ out.old.items ++ lines_text (map (row_text p.now.functions) rows.now)) }
{
    let symbols = p.functions.as_slice();
    for row in rows {
        let name = symbol_name(symbols, row.id);
        put_applied(alloc, name, row.at.as_slice(), out)?;
        out.extend_from_slice(b" = ")?;
        put_integer(alloc, &row.value, out)?;
        out.extend_from_slice(b"\n")?;
    }
    Ok(())
}

/// The lines of a counterexample: `counterexample:`, each existential and each universal constant with its value, as `a = 0`,
/// each row at which a predicate is true, as `p(3)`, and each value of a function, as `f(0) = 1`. The one error is want of
/// memory.
pub fn print_counterexample(
    alloc: Global,
    p: &Problem,
    at: &[i128],
    universals: &[i128],
    table: &Table,
) -> Result<Vec<u8>, Memory>
    requires values { length at.now ≡ length p.now.existentials }
    requires others { length universals.now ≡ length p.now.universals }
    ensures { IfOk result (λ v. v.items ≡ counterexample_text p.now at.now universals.now table.now) }
{
    let mut out = Vec::from_slice(alloc, b"counterexample:\n")?;
    put_constants(alloc, p.existentials.as_slice(), at, &mut out)?;
    put_constants(alloc, p.universals.as_slice(), universals, &mut out)?;
    put_truths(alloc, p, table.truths.as_slice(), &mut out)?;
    put_values(alloc, p, table.values.as_slice(), &mut out)?;
    Ok(out)
}
