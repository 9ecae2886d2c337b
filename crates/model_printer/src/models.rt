// The text of a counterexample in a finite model.

ghost use Rattle.pri_printer.specs.Counterexample.{applied_text, lines_text};
ghost use Rattle.model_printer.specs.Models as texts;
ghost use Rattle.pri_printer.specs.Text.{behind_each, value_text};
ghost use Rattle.std.specs.Prelude.{◌≡◌, ◌++◌, codes, replicate, IfOk, length, OnOk};

use linear_term::Memory;
use model_table::{FunctionModel, Model, PredicateModel, TruthEntry, ValueEntry};
use pri_printer::{put_applied, put_constants, put_integer};
use pri_typing::{Problem, Symbol};
use std::alloc::Global;

/// Puts n further underscores after a text.
fn put_blanks(n: u32, out: &mut Vec<u8>) -> Result<(), Memory>
    ensures { OnOk result (out.new.items ≡ out.old.items ++ behind_each (codes ", ") (replicate n (codes "_"))) }
{
    for _ in 0..n {
        out.extend_from_slice(b", ")?;
        out.extend_from_slice(b"_")?;
    }
    Ok(())
}

/// Puts a symbol at any n integers after a text.
fn put_anywhere(name: &[u8], n: u32, out: &mut Vec<u8>) -> Result<(), Memory>
    ensures { OnOk result (out.new.items ≡ out.old.items ++ texts.anywhere_text name.now n) }
{
    out.extend_from_slice(name)?;
    if n == 0 {
        return Ok(());
    }
    out.extend_from_slice(b"(")?;
    out.extend_from_slice(b"_")?;
    put_blanks(n - 1, out)?;
    out.extend_from_slice(b")")?;
    Ok(())
}

/// Puts what a row says of a predicate after a text.
fn put_signed(alloc: Global, name: &[u8], row: &TruthEntry, out: &mut Vec<u8>) -> Result<(), Memory>
    ensures { OnOk result (out.new.items ≡ out.old.items ++ texts.signed_text name.now row.now) }
{
    if !row.truth {
        out.extend_from_slice(b"!")?;
    }
    put_applied(alloc, name, row.at.as_slice(), out)
}

/// Puts a line for each row of a predicate that says other than its default after a text.
fn put_truth_lines(
    alloc: Global,
    name: &[u8],
    default: bool,
    rows: &[TruthEntry],
    out: &mut Vec<u8>,
) -> Result<(), Memory>
    ensures { OnOk result (out.new.items ≡ out.old.items ++ lines_text (texts.truth_lines name.now default rows.now)) }
{
    for row in rows {
        if row.truth == default {
            continue;
        }
        put_signed(alloc, name, row, out)?;
        out.extend_from_slice(b"\n")?;
    }
    Ok(())
}

/// Puts a line for a predicate that is true everywhere after a text.
fn put_default_truth(symbol: &Symbol, truth: bool, out: &mut Vec<u8>) -> Result<(), Memory>
    ensures { OnOk result (out.new.items ≡ out.old.items ++ lines_text (texts.default_truth symbol.now truth)) }
{
    if !truth {
        return Ok(());
    }
    put_anywhere(symbol.name.as_slice(), symbol.arity, out)?;
    out.extend_from_slice(b"\n")?;
    Ok(())
}

/// Puts what a model says of a predicate after a text.
fn put_predicate(
    alloc: Global,
    symbol: &Symbol,
    model: &PredicateModel,
    out: &mut Vec<u8>,
) -> Result<(), Memory>
    ensures { OnOk result (out.new.items ≡ out.old.items ++ lines_text (texts.predicate_lines symbol.now model.now)) }
{
    if symbol.arity == 0 {
        return put_default_truth(symbol, model.truth(&[]), out);
    }
    put_truth_lines(
        alloc,
        symbol.name.as_slice(),
        model.default,
        model.rows.as_slice(),
        out,
    )?;
    put_default_truth(symbol, model.default, out)
}

/// Puts what a model says of each predicate after a text.
fn put_predicates(
    alloc: Global,
    symbols: &[Symbol],
    models: &[PredicateModel],
    out: &mut Vec<u8>,
) -> Result<(), Memory>
    ensures { OnOk result (out.new.items ≡ out.old.items ++ lines_text (texts.predicates_lines symbols.now models.now)) }
{
    let mut symbols = symbols;
    let mut models = models;
    while let Some((symbol, more)) = symbols.split_first() {
        let Some((model, rest)) = models.split_first() else {
            return Ok(());
        };
        put_predicate(alloc, symbol, model, out)?;
        symbols = more;
        models = rest;
    }
    Ok(())
}

/// Puts `f(0) = 1` after a text.
fn put_row(alloc: Global, name: &[u8], row: &ValueEntry, out: &mut Vec<u8>) -> Result<(), Memory>
    ensures { OnOk result (out.new.items ≡ out.old.items ++ value_text (applied_text name.now row.now.at) row.now.value) }
{
    put_applied(alloc, name, row.at.as_slice(), out)?;
    out.extend_from_slice(b" = ")?;
    put_integer(alloc, &row.value, out)
}

/// Puts a line for each row of a function with another value than its default after a text.
fn put_value_lines(
    alloc: Global,
    name: &[u8],
    default: i128,
    rows: &[ValueEntry],
    out: &mut Vec<u8>,
) -> Result<(), Memory>
    ensures { OnOk result (out.new.items ≡ out.old.items ++ lines_text (texts.value_lines name.now default rows.now)) }
{
    for row in rows {
        if row.value == default {
            continue;
        }
        put_row(alloc, name, row, out)?;
        out.extend_from_slice(b"\n")?;
    }
    Ok(())
}

/// Puts a line for a function that has this value everywhere after a text; none where it is 0.
fn put_default_value(
    alloc: Global,
    symbol: &Symbol,
    value: i128,
    out: &mut Vec<u8>,
) -> Result<(), Memory>
    ensures { OnOk result (out.new.items ≡ out.old.items ++ lines_text (texts.default_value symbol.now value)) }
{
    if value == 0 {
        return Ok(());
    }
    put_anywhere(symbol.name.as_slice(), symbol.arity, out)?;
    out.extend_from_slice(b" = ")?;
    put_integer(alloc, &value, out)?;
    out.extend_from_slice(b"\n")?;
    Ok(())
}

/// Puts what a model says of a function after a text.
fn put_function(
    alloc: Global,
    symbol: &Symbol,
    model: &FunctionModel,
    out: &mut Vec<u8>,
) -> Result<(), Memory>
    ensures { OnOk result (out.new.items ≡ out.old.items ++ lines_text (texts.function_lines symbol.now model.now)) }
{
    if symbol.arity == 0 {
        return put_default_value(alloc, symbol, model.value(&[]), out);
    }
    put_value_lines(
        alloc,
        symbol.name.as_slice(),
        model.default,
        model.rows.as_slice(),
        out,
    )?;
    put_default_value(alloc, symbol, model.default, out)
}

/// Puts what a model says of each function after a text.
fn put_functions(
    alloc: Global,
    symbols: &[Symbol],
    models: &[FunctionModel],
    out: &mut Vec<u8>,
) -> Result<(), Memory>
    ensures { OnOk result (out.new.items ≡ out.old.items ++ lines_text (texts.functions_lines symbols.now models.now)) }
{
    let mut symbols = symbols;
    let mut models = models;
    while let Some((symbol, more)) = symbols.split_first() {
        let Some((model, rest)) = models.split_first() else {
            return Ok(());
        };
        put_function(alloc, symbol, model, out)?;
        symbols = more;
        models = rest;
    }
    Ok(())
}

/// The lines of a counterexample in a model: `counterexample:`, each universal constant with its value, as `x = 3`, then of each
/// predicate the rows that say other than its default, as `p(3)` or `!p(3)`, and `p(_)` where the default is true, and of each
/// function the rows with other values than its default, as `f(0) = 1`, and `f(_) = 5` where the default is not 0. The one error
/// is running out of memory.
pub fn print_model(
    alloc: Global,
    p: &Problem,
    universals: &[i128],
    model: &Model,
) -> Result<Vec<u8>, Memory>
    requires { length universals.now ≡ length p.now.universals }
    ensures { IfOk result (λ v. v.items ≡ texts.model_text p.now universals.now model.now) }
{
    let mut out = Vec::from_slice(alloc, b"counterexample:\n")?;
    put_constants(alloc, p.universals.as_slice(), universals, &mut out)?;
    put_predicates(
        alloc,
        p.predicates.as_slice(),
        model.predicates.as_slice(),
        &mut out,
    )?;
    put_functions(
        alloc,
        p.functions.as_slice(),
        model.functions.as_slice(),
        &mut out,
    )?;
    Ok(out)
}
