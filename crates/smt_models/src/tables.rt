// The texts of the tables of a model, as terms of SMT-LIB.

ghost use Rattle.smt_models.specs.Printed.{text};
ghost use Rattle.smt_models.specs.Terms.{truths_term, values_term};
ghost use Rattle.smt_models.specs.Rows.{truth_row_text, value_row_text};
ghost use Rattle.std.specs.List.{flat_map};
ghost use Rattle.std.specs.Prelude.{◌≡◌, ◌++◌, OnOk, replicate};

use crate::terms::{put_integer, put_place, put_truth};
use linear_term::Memory;
use model_table::{TruthEntry, ValueEntry};
use std::alloc::Global;

/// Puts this many closing parentheses after a text.
fn put_closes(count: usize, out: &mut Vec<u8>) -> Result<(), Memory>
    ensures { OnOk result (out.new.items ≡ out.old.items ++ replicate count 41) }
{
    for _ in 0..count {
        out.extend_from_slice(b")")?;
    }
    Ok(())
}

/// Puts `(ite (= x!0 1) 7 ` after a text.
fn put_value_row(alloc: Global, row: &ValueEntry, out: &mut Vec<u8>) -> Result<(), Memory>
    ensures { OnOk result (out.new.items ≡ out.old.items ++ value_row_text row.now) }
{
    out.extend_from_slice(b"(ite ")?;
    put_place(alloc, row.at.as_slice(), out)?;
    out.extend_from_slice(b" ")?;
    put_integer(alloc, &row.value, out)?;
    out.extend_from_slice(b" ")?;
    Ok(())
}

/// Puts the beginnings of rows after a text.
fn put_value_rows(alloc: Global, rows: &[ValueEntry], out: &mut Vec<u8>) -> Result<(), Memory>
    ensures { OnOk result (out.new.items ≡ out.old.items ++ flat_map value_row_text rows.now) }
{
    for row in rows {
        put_value_row(alloc, row, out)?;
    }
    Ok(())
}

/// Puts the value of a function at its parameters after a text.
pub(crate) fn put_values(
    alloc: Global,
    rows: &[ValueEntry],
    default: &i128,
    out: &mut Vec<u8>,
) -> Result<(), Memory>
    ensures { OnOk result (out.new.items ≡ out.old.items ++ text (values_term rows.now default.now)) }
{
    put_value_rows(alloc, rows, out)?;
    put_integer(alloc, default, out)?;
    put_closes(rows.len(), out)
}

/// Puts `(ite (= x!0 1) true ` after a text.
fn put_truth_row(alloc: Global, row: &TruthEntry, out: &mut Vec<u8>) -> Result<(), Memory>
    ensures { OnOk result (out.new.items ≡ out.old.items ++ truth_row_text row.now) }
{
    out.extend_from_slice(b"(ite ")?;
    put_place(alloc, row.at.as_slice(), out)?;
    out.extend_from_slice(b" ")?;
    put_truth(row.truth, out)?;
    out.extend_from_slice(b" ")?;
    Ok(())
}

/// Puts the beginnings of rows after a text.
fn put_truth_rows(alloc: Global, rows: &[TruthEntry], out: &mut Vec<u8>) -> Result<(), Memory>
    ensures { OnOk result (out.new.items ≡ out.old.items ++ flat_map truth_row_text rows.now) }
{
    for row in rows {
        put_truth_row(alloc, row, out)?;
    }
    Ok(())
}

/// Puts the truth of a predicate at its parameters after a text.
pub(crate) fn put_truths(
    alloc: Global,
    rows: &[TruthEntry],
    default: bool,
    out: &mut Vec<u8>,
) -> Result<(), Memory>
    ensures { OnOk result (out.new.items ≡ out.old.items ++ text (truths_term rows.now default)) }
{
    put_truth_rows(alloc, rows, out)?;
    put_truth(default, out)?;
    put_closes(rows.len(), out)
}
