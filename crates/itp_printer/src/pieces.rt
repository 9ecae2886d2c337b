// The pieces of the text of a formula: numbers, names, signs, types and quantifiers.

ghost use Rattle.base_limits.specs.Limits.{most_constants};
ghost use Rattle.std.specs.Prelude.{◌≡◌, ◌++◌, ◌<◌, ◌≤◌, ◌+◌, codes, cond, length, OnOk, slice_index_or, []};
ghost use Rattle.std.specs.Fmt.{decimal, signed_decimal};
ghost use Rattle.pri_printer.specs.Printed.{constants_of};
ghost use Rattle.form_typed.specs.declared.typed.Sort.TheVariants.{Range};
ghost use Rattle.itp_printer.specs.Numbers.{AreNumbers};
ghost use Rattle.itp_printer.specs.Pieces.{binder_text, joint_text};
ghost use Rattle.itp_printer.specs.TypedText.{name_text, quantifier_text, relation_text, sort_text, symbol_text, truth_text};
ghost use Rattle.itp_printer.specs.Variables.{variable_name};

use form_typed::{Relation, Sort};
use linear_term::Memory;
use pri_typing::{Problem, Symbol};
use std::alloc::Global;

/// Puts the digits of a number after a text.
pub(crate) fn put_number(alloc: Global, n: u128, out: &mut Vec<u8>) -> Result<(), Memory>
    ensures { OnOk result (out.new.items ≡ out.old.items ++ decimal n) }
{
    let digits = n.to_string(alloc)?;
    out.extend_from_slice(digits.as_bytes())?;
    Ok(())
}

/// Puts a number with its sign after a text.
pub(crate) fn put_signed(alloc: Global, n: &i128, out: &mut Vec<u8>) -> Result<(), Memory>
    ensures { OnOk result (out.new.items ≡ out.old.items ++ signed_decimal n.now) }
{
    let digits = n.to_string(alloc)?;
    out.extend_from_slice(digits.as_bytes())?;
    Ok(())
}

/// Puts the name of a bound variable after a text.
pub(crate) fn put_variable(alloc: Global, number: u128, out: &mut Vec<u8>) -> Result<(), Memory>
    ensures { OnOk result (out.new.items ≡ out.old.items ++ variable_name number) }
{
    out.push(b'v')?;
    put_number(alloc, number, out)
}

/// The name of a constant.
fn constant_name(p: &Problem, x: usize) -> &[u8]
    requires { x < length (constants_of p.now) }
    ensures { result.now ≡ slice_index_or (constants_of p.now) x [] }
{
    let existentials = p.existentials.as_slice();
    if x < existentials.len() {
        existentials[x].as_slice()
    } else {
        p.universals.as_slice()[x - existentials.len()].as_slice()
    }
}

/// Puts a name after a text: that of a constant, or of a bound variable.
pub(crate) fn put_name(
    alloc: Global,
    p: &Problem,
    numbers: &[u128],
    x: usize,
    out: &mut Vec<u8>,
) -> Result<(), Memory>
    requires numbers { AreNumbers p.now numbers.now }
    requires named { x < length (constants_of p.now) + length numbers.now }
    requires few { length (constants_of p.now) ≤ most_constants }
    ensures { OnOk result (out.new.items ≡ out.old.items ++ name_text p.now x) }
{
    let constants = p.existentials.len() + p.universals.len();
    if x < constants {
        out.extend_from_slice(constant_name(p, x))?;
        return Ok(());
    }
    put_variable(alloc, numbers[x - constants], out)
}

/// The name of a symbol.
pub(crate) fn symbol_name(symbols: &[Symbol], k: usize) -> &[u8]
    requires { k < length symbols.now }
    ensures { result.now ≡ symbol_text symbols.now k }
{
    symbols[k].name.as_slice()
}

/// Puts the sign of a relation after a text.
pub(crate) fn put_relation(r: Relation, out: &mut Vec<u8>) -> Result<(), Memory>
    ensures { OnOk result (out.new.items ≡ out.old.items ++ relation_text r) }
{
    match r {
        Relation::Eq => out.extend_from_slice(b" = ")?,
        Relation::Neq => out.extend_from_slice(b" != ")?,
        Relation::Lt => out.extend_from_slice(b" < ")?,
        Relation::Leq => out.extend_from_slice(b" <= ")?,
        Relation::Gt => out.extend_from_slice(b" > ")?,
        Relation::Geq => out.extend_from_slice(b" >= ")?,
    }
    Ok(())
}

/// Puts `true` or `false` after a text.
pub(crate) fn put_truth(b: bool, out: &mut Vec<u8>) -> Result<(), Memory>
    ensures { OnOk result (out.new.items ≡ out.old.items ++ truth_text b) }
{
    if b {
        out.extend_from_slice(b"true")?;
    } else {
        out.extend_from_slice(b"false")?;
    }
    Ok(())
}

/// Puts the sign of a conjunction or a disjunction after a text, where something stands before it.
pub(crate) fn put_joint(all: bool, started: bool, out: &mut Vec<u8>) -> Result<(), Memory>
    ensures { OnOk result (out.new.items ≡ out.old.items ++ cond started (joint_text all) []) }
{
    if !started {
        return Ok(());
    }
    if all {
        out.extend_from_slice(b" & ")?;
    } else {
        out.extend_from_slice(b" | ")?;
    }
    Ok(())
}

/// Puts a comma after a text, where something stands before it.
pub(crate) fn put_comma(started: bool, out: &mut Vec<u8>) -> Result<(), Memory>
    ensures { OnOk result (out.new.items ≡ out.old.items ++ cond started (codes ", ") []) }
{
    if started {
        out.extend_from_slice(b", ")?;
    }
    Ok(())
}

/// Puts a plus after a text, where something stands before it.
pub(crate) fn put_plus(started: bool, out: &mut Vec<u8>) -> Result<(), Memory>
    ensures { OnOk result (out.new.items ≡ out.old.items ++ cond started (codes " + ") []) }
{
    if started {
        out.extend_from_slice(b" + ")?;
    }
    Ok(())
}

/// Puts the type `int[a, b]` after a text.
fn put_range(alloc: Global, a: &i128, b: &i128, out: &mut Vec<u8>) -> Result<(), Memory>
    ensures { OnOk result (out.new.items ≡ out.old.items ++ sort_text (Range a.now b.now)) }
{
    out.extend_from_slice(b"int[")?;
    put_signed(alloc, a, out)?;
    out.extend_from_slice(b", ")?;
    put_signed(alloc, b, out)?;
    out.push(b']')?;
    Ok(())
}

/// Puts a type after a text.
fn put_sort(alloc: Global, sort: &Sort, out: &mut Vec<u8>) -> Result<(), Memory>
    ensures { OnOk result (out.new.items ≡ out.old.items ++ sort_text sort.now) }
{
    match sort {
        Sort::Int => out.extend_from_slice(b"int")?,
        Sort::Nat => out.extend_from_slice(b"nat")?,
        Sort::Range(a, b) => put_range(alloc, a, b, out)?,
    }
    Ok(())
}

/// Puts a quantifier after a text.
fn put_quantifier(all: bool, out: &mut Vec<u8>) -> Result<(), Memory>
    ensures { OnOk result (out.new.items ≡ out.old.items ++ quantifier_text all) }
{
    if all {
        out.extend_from_slice(b"\\forall")?;
    } else {
        out.extend_from_slice(b"\\exists")?;
    }
    Ok(())
}

/// Puts a quantifier with its variable and the variable's type after a text.
pub(crate) fn put_binder(
    alloc: Global,
    all: bool,
    sort: &Sort,
    number: u128,
    out: &mut Vec<u8>,
) -> Result<(), Memory>
    ensures { OnOk result (out.new.items ≡ out.old.items ++ binder_text all sort.now (variable_name number)) }
{
    put_quantifier(all, out)?;
    out.push(b' ')?;
    put_sort(alloc, sort, out)?;
    out.push(b' ')?;
    put_variable(alloc, number, out)?;
    out.extend_from_slice(b"; ")?;
    Ok(())
}
