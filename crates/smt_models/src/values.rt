// The response to `get-value` for symbols without parameters.

ghost use Rattle.smt_models.specs.Printed.{text};
ghost use Rattle.smt_models.specs.Terms.{integer_term, truth_term};
ghost use Rattle.smt_models.specs.Values as texts;
ghost use Rattle.std.specs.List.{flat_map, list_all, slice_get};
ghost use Rattle.std.specs.Prelude.{◌≡◌, ◌++◌, IfOk, length, OnOk};

use crate::symbols::put_symbol;
use crate::terms::{put_integer, put_truth};
use linear_term::Memory;
use model_table::{Model, PredicateModel};
use pri_typing::{Problem, Symbol};
use sqlite_items::Items;
use std::alloc::Global;

/// A symbol without parameters, with the text of its value.
#[derive(Drop)]
pub struct Value {
    pub name: Items<u8>,
    pub text: Items<u8>,
}

/// A symbol with the text of its value.
fn valued(alloc: Global, name: &[u8], text: &[u8]) -> Result<Value, Memory>
    ensures { IfOk result (λ v. (v.name ≡ name.now) × (v.text ≡ text.now)) }
{
    Ok(Value {
        name: Items::from_slice(alloc, name)?,
        text: Items::from_slice(alloc, text)?,
    })
}

/// An Int constant with the text of its value.
fn integer_value(alloc: Global, name: &[u8], number: &i128) -> Result<Value, Memory>
    ensures { IfOk result (λ v. (v.name ≡ name.now) × (v.text ≡ text (integer_term number.now))) }
{
    let mut out = Vec::new(alloc);
    put_integer(alloc, number, &mut out)?;
    valued(alloc, name, out.as_slice())
}

/// The Int constants with the texts of their values.
fn integer_values(
    alloc: Global,
    names: &[Items<u8>],
    numbers: &[i128],
) -> Result<Items<Value>, Memory>
    requires { length names.now ≡ length numbers.now }
    ensures { IfOk result (λ vs. vs ≡ texts.integer_values names.now numbers.now) }
{
    let mut found = Items::new(alloc);
    for i in 0..names.len() {
        found.push(integer_value(alloc, names[i].as_slice(), &numbers[i])?)?;
    }
    Ok(found)
}

/// The truth of the predicate of this number without arguments.
fn truth_of(tables: &[PredicateModel], number: usize) -> bool
    ensures { result ≡ texts.truth_by (slice_get tables.now number) }
{
    match tables.get(number) {
        Some(table) => table.truth(&[]),
        None => false,
    }
}

/// These values, and that of the predicate of this number if it has no arguments.
fn with_truth(
    alloc: Global,
    symbol: &Symbol,
    tables: &[PredicateModel],
    number: usize,
    found: Items<Value>,
) -> Result<Items<Value>, Memory>
    ensures { IfOk result (λ vs. vs ≡ found ++ texts.truth_value symbol.now tables.now number) }
{
    if symbol.arity != 0 {
        return Ok(found);
    }
    let mut found = found;
    let mut out = Vec::new(alloc);
    put_truth(truth_of(tables, number), &mut out)?;
    found.push(valued(alloc, symbol.name.as_slice(), out.as_slice())?)?;
    Ok(found)
}

/// These values, and those of the predicates without arguments.
fn with_truths(
    alloc: Global,
    symbols: &[Symbol],
    tables: &[PredicateModel],
    found: Items<Value>,
) -> Result<Items<Value>, Memory>
    ensures { IfOk result (λ vs. vs ≡ found ++ texts.truth_values symbols.now tables.now 0) }
{
    let mut found = found;
    for i in 0..symbols.len() {
        found = with_truth(alloc, &symbols[i], tables, i, found)?;
    }
    Ok(found)
}

/// The symbols of a problem without parameters, with the texts of their values: the Int constants by these integers, the predicates by
/// the tables that the model has. The one error is running out of memory.
pub fn symbol_values(
    alloc: Global,
    problem: &Problem,
    model: &Model,
    numbers: &[i128],
) -> Result<Items<Value>, Memory>
    requires { length numbers.now ≡ length problem.now.universals }
    ensures { IfOk result (λ vs. vs ≡ texts.symbol_values problem.now model.now numbers.now) }
{
    let found = integer_values(alloc, problem.universals.as_slice(), numbers)?;
    with_truths(
        alloc,
        problem.predicates.as_slice(),
        model.predicates.as_slice(),
        found,
    )
}

/// Whether a symbol has this name.
fn is_named(name: &[u8], value: &Value) -> bool
    ensures { result ≡ texts.is_named name.now value.now }
{
    name == value.name.as_slice()
}

/// Whether one of the symbols has this name.
fn has_value(values: &[Value], name: &[u8]) -> bool
    ensures { result ≡ texts.has_value values.now name.now }
{
    for value in values {
        let named = is_named(name, value);
        if named {
            return true;
        }
    }
    false
}

/// Whether each of these names is that of one of the symbols.
fn have_values(values: &[Value], names: &[Items<u8>]) -> bool
    ensures { result ≡ list_all (texts.has_value values.now) names.now }
{
    for name in names {
        let known = has_value(values, name.as_slice());
        if !known {
            return false;
        }
    }
    true
}

/// The text of the value of the first symbol of this name; nothing if there is none.
fn value_named<'a>(values: &'a [Value], name: &[u8]) -> &'a [u8]
    ensures { result.now ≡ texts.value_named values.now name.now }
{
    for value in values {
        let named = is_named(name, value);
        if named {
            return value.text.as_slice();
        }
    }
    &[]
}

/// Puts a symbol and its value after a text, in parentheses.
fn put_pair(values: &[Value], name: &[u8], out: &mut Vec<u8>) -> Result<(), Memory>
    ensures { OnOk result (out.new.items ≡ out.old.items ++ texts.pair_text values.now name.now) }
{
    out.extend_from_slice(b"(")?;
    put_symbol(name, out)?;
    out.extend_from_slice(b" ")?;
    out.extend_from_slice(value_named(values, name))?;
    out.extend_from_slice(b")")?;
    Ok(())
}

/// Puts further symbols and their values after a text, each after a blank.
fn put_further(values: &[Value], names: &[Items<u8>], out: &mut Vec<u8>) -> Result<(), Memory>
    ensures { OnOk result (out.new.items ≡ out.old.items ++ flat_map (texts.further_pair values.now) names.now) }
{
    for name in names {
        out.extend_from_slice(b" ")?;
        put_pair(values, name.as_slice(), out)?;
    }
    Ok(())
}

/// Puts symbols and their values after a text, a blank between them.
fn put_pairs(values: &[Value], names: &[Items<u8>], out: &mut Vec<u8>) -> Result<(), Memory>
    ensures { OnOk result (out.new.items ≡ out.old.items ++ texts.pairs_text values.now names.now) }
{
    let Some((first, more)) = names.split_first() else {
        return Ok(());
    };
    put_pair(values, first.as_slice(), out)?;
    put_further(values, more, out)
}

/// Puts the response to `get-value` for these names after a text, by the values of these symbols: each name with its value, or an error
/// if one of them is no symbol's. The one error is running out of memory.
pub fn put_values_of(values: &[Value], names: &[Items<u8>], out: &mut Vec<u8>) -> Result<(), Memory>
    ensures { OnOk result (out.new.items ≡ out.old.items ++ texts.values_text values.now names.now) }
{
    if !have_values(values, names) {
        out.extend_from_slice(b"(error \"there is no value of one of these symbols\")\n")?;
        return Ok(());
    }
    out.extend_from_slice(b"(")?;
    put_pairs(values, names, out)?;
    out.extend_from_slice(b")\n")?;
    Ok(())
}
