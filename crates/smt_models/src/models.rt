// The response to `get-model`: a line for each definition.

ghost use Rattle.smt_models.specs.Models as texts;
ghost use Rattle.smt_models.specs.Models.{definition_text};
ghost use Rattle.smt_models.specs.Printed.{text};
ghost use Rattle.std.specs.List.{flat_map, slice_get};
ghost use Rattle.std.specs.Prelude.{◌≡◌, ◌++◌, IfOk, length, OnOk};

use crate::symbols::put_symbol;
use crate::tables::{put_truths, put_values};
use crate::terms::{put_argument, put_integer, put_truth};
use linear_term::Memory;
use model_table::{FunctionModel, Model, PredicateModel, ValueEntry};
use pri_typing::{Problem, Symbol};
use smt_terms::Sort;
use sqlite_items::Items;
use std::alloc::Global;

/// Puts a parameter of the sort Int after a text, after a blank if it is not the first.
fn put_parameter(alloc: Global, number: u32, out: &mut Vec<u8>) -> Result<(), Memory>
    ensures { OnOk result (out.new.items ≡ out.old.items ++ texts.parameter_text number) }
{
    if number != 0 {
        out.extend_from_slice(b" ")?;
    }
    out.extend_from_slice(b"(")?;
    put_argument(alloc, number as usize, out)?;
    out.extend_from_slice(b" Int)")?;
    Ok(())
}

/// Puts this many parameters of the sort Int after a text.
fn put_parameters(alloc: Global, count: u32, out: &mut Vec<u8>) -> Result<(), Memory>
    ensures { OnOk result (out.new.items ≡ out.old.items ++ texts.parameters_text 0 count) }
{
    for number in 0..count {
        put_parameter(alloc, number, out)?;
    }
    Ok(())
}

/// Puts the name of a sort after a text.
fn put_sort(sort: Sort, out: &mut Vec<u8>) -> Result<(), Memory>
    ensures { OnOk result (out.new.items ≡ out.old.items ++ texts.sort_text sort) }
{
    match sort {
        Sort::Int => out.extend_from_slice(b"Int")?,
        Sort::Bool => out.extend_from_slice(b"Bool")?,
    }
    Ok(())
}

/// Puts a definition up to its body after a text.
fn put_head(
    alloc: Global,
    name: &[u8],
    arity: u32,
    sort: Sort,
    out: &mut Vec<u8>,
) -> Result<(), Memory>
    ensures { OnOk result (out.new.items ≡ out.old.items ++ texts.head_text name.now arity sort) }
{
    out.extend_from_slice(b"  (define-fun ")?;
    put_symbol(name, out)?;
    out.extend_from_slice(b" (")?;
    put_parameters(alloc, arity, out)?;
    out.extend_from_slice(b") ")?;
    put_sort(sort, out)?;
    out.extend_from_slice(b" ")?;
    Ok(())
}

/// Puts the definition of a constant after a text.
fn put_constant(alloc: Global, name: &[u8], value: &i128, out: &mut Vec<u8>) -> Result<(), Memory>
    ensures { OnOk result (out.new.items ≡ out.old.items ++ definition_text (texts.constant_definition name.now value.now)) }
{
    put_head(alloc, name, 0, Sort::Int, out)?;
    put_integer(alloc, value, out)?;
    out.extend_from_slice(b")\n")?;
    Ok(())
}

/// Puts the definitions of the constants after a text.
fn put_constants(
    alloc: Global,
    names: &[Items<u8>],
    values: &[i128],
    out: &mut Vec<u8>,
) -> Result<(), Memory>
    requires { length names.now ≡ length values.now }
    ensures { OnOk result (out.new.items ≡ out.old.items ++ flat_map definition_text (texts.constant_definitions names.now values.now)) }
{
    for i in 0..names.len() {
        put_constant(alloc, names[i].as_slice(), &values[i], out)?;
    }
    Ok(())
}

/// Puts the definition of a function by these rows and this default after a text.
fn put_values_definition(
    alloc: Global,
    symbol: &Symbol,
    rows: &[ValueEntry],
    default: &i128,
    out: &mut Vec<u8>,
) -> Result<(), Memory>
    ensures { OnOk result (out.new.items ≡ out.old.items ++ definition_text (texts.values_definition symbol.now rows.now default.now)) }
{
    put_head(alloc, symbol.name.as_slice(), symbol.arity, Sort::Int, out)?;
    put_values(alloc, rows, default, out)?;
    out.extend_from_slice(b")\n")?;
    Ok(())
}

/// Puts the definition of a function by the table of this number, if there is one, after a text.
fn put_function(
    alloc: Global,
    symbol: &Symbol,
    tables: &[FunctionModel],
    number: usize,
    out: &mut Vec<u8>,
) -> Result<(), Memory>
    ensures { OnOk result (out.new.items ≡ out.old.items ++ definition_text (texts.function_definition symbol.now (slice_get tables.now number))) }
{
    match tables.get(number) {
        Some(table) => {
            let rows = table.rows.as_slice();
            put_values_definition(alloc, symbol, rows, &table.default, out)
        }
        None => put_values_definition(alloc, symbol, &[], &0, out),
    }
}

/// Puts the definitions of the functions after a text.
fn put_functions(
    alloc: Global,
    symbols: &[Symbol],
    tables: &[FunctionModel],
    out: &mut Vec<u8>,
) -> Result<(), Memory>
    ensures { OnOk result (out.new.items ≡ out.old.items ++ flat_map definition_text (texts.function_definitions symbols.now tables.now)) }
{
    for i in 0..symbols.len() {
        put_function(alloc, &symbols[i], tables, i, out)?;
    }
    Ok(())
}

/// Puts the truth of a predicate at its parameters after a text; of one without parameters its truth.
fn put_truth_body(
    alloc: Global,
    arity: u32,
    table: &PredicateModel,
    out: &mut Vec<u8>,
) -> Result<(), Memory>
    ensures { OnOk result (out.new.items ≡ out.old.items ++ text (texts.truths_body arity table.now.rows table.now.default)) }
{
    if arity == 0 {
        return put_truth(table.truth(&[]), out);
    }
    put_truths(alloc, table.rows.as_slice(), table.default, out)
}

/// Puts the definition of a predicate by its table after a text.
fn put_truths_definition(
    alloc: Global,
    symbol: &Symbol,
    table: &PredicateModel,
    out: &mut Vec<u8>,
) -> Result<(), Memory>
    ensures { OnOk result (out.new.items ≡ out.old.items ++ definition_text (texts.truths_definition symbol.now table.now.rows table.now.default)) }
{
    put_head(alloc, symbol.name.as_slice(), symbol.arity, Sort::Bool, out)?;
    put_truth_body(alloc, symbol.arity, table, out)?;
    out.extend_from_slice(b")\n")?;
    Ok(())
}

/// Puts the definition of a predicate by the table of this number, if there is one, after a text.
fn put_predicate(
    alloc: Global,
    symbol: &Symbol,
    tables: &[PredicateModel],
    number: usize,
    out: &mut Vec<u8>,
) -> Result<(), Memory>
    ensures { OnOk result (out.new.items ≡ out.old.items ++ definition_text (texts.predicate_definition symbol.now (slice_get tables.now number))) }
{
    match tables.get(number) {
        Some(table) => put_truths_definition(alloc, symbol, table, out),
        None => {
            let nowhere = PredicateModel {
                rows: Items::new(alloc),
                default: false,
            };
            put_truths_definition(alloc, symbol, &nowhere, out)
        }
    }
}

/// Puts the definitions of the predicates after a text.
fn put_predicates(
    alloc: Global,
    symbols: &[Symbol],
    tables: &[PredicateModel],
    out: &mut Vec<u8>,
) -> Result<(), Memory>
    ensures { OnOk result (out.new.items ≡ out.old.items ++ flat_map definition_text (texts.predicate_definitions symbols.now tables.now)) }
{
    for i in 0..symbols.len() {
        put_predicate(alloc, &symbols[i], tables, i, out)?;
    }
    Ok(())
}

/// The response to `get-model`: a definition for each Int constant, each function and each predicate, in the order of their
/// declarations, with the values that the constants have and the tables that the model has. The one error is running out of memory.
pub fn model_text(
    alloc: Global,
    problem: &Problem,
    model: &Model,
    values: &[i128],
) -> Result<Vec<u8>, Memory>
    requires { length values.now ≡ length problem.now.universals }
    ensures { IfOk result (λ v. v.items ≡ texts.model_text problem.now model.now values.now) }
{
    let mut out = Vec::from_slice(alloc, b"(\n")?;
    put_constants(alloc, problem.universals.as_slice(), values, &mut out)?;
    put_functions(
        alloc,
        problem.functions.as_slice(),
        model.functions.as_slice(),
        &mut out,
    )?;
    put_predicates(
        alloc,
        problem.predicates.as_slice(),
        model.predicates.as_slice(),
        &mut out,
    )?;
    out.extend_from_slice(b")\n")?;
    Ok(out)
}
