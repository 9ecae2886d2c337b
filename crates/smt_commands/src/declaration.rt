// The faults of declarations and of definitions, but for those of a term that defines a symbol.

ghost use Rattle.smt_commands.specs.Faults.{argument_faults, declaration_faults, definition_faults, many_faults, name_faults, sort_faults};
ghost use Rattle.smt_commands.specs.Least.{IsScriptRefused, least, least_from};
ghost use Rattle.smt_commands.specs.Symbols.{after, or_int, sort_of};
ghost use Rattle.smt_commands.specs.Views.{symbol_is};
ghost use Rattle.smt_lists.specs.Expressions.{expr, place_of};
ghost use Rattle.std.specs.List.{flat_map};
ghost use Rattle.smt_commands.specs.Commands.{Symbol, declare};
ghost use Rattle.std.specs.Prelude.{◌≡◌, Some, None, IfOk, IfErr, false, map};

use crate::expressions::{Name, members, symbol};
use crate::operators::is_reserved;
use crate::order::sooner;
use crate::refusal::ScriptRefusal;
use crate::table::Table;
use base_limits::MOST_SYMBOLS;
use smt_lists::Sexp;
use smt_terms::Sort;
use std::alloc::Global;

/// How many symbols may be declared.
const MOST: u64 = MOST_SYMBOLS as u64;

/// The first fault of a declaration after these symbols; none where it may be made.
pub fn declaration_refusal(
    table: &Table,
    name: Name<'_>,
    sorts: &[Sexp],
    sort: &Sexp,
) -> Option<ScriptRefusal>
    ensures exact { result ≡ least (declaration_faults table.now.entries (symbol_is name.entry) (map expr sorts.now) (expr sort.now)) }
{
    let found = with_name_fault(None, table, name);
    let found = with_many_fault(found, table, name.at);
    let found = with_sort_faults(found, sorts);
    with_sort_fault(found, sort, true)
}

/// The symbols after a declaration, or its first fault.
pub fn declare(
    alloc: Global,
    table: Table,
    name: Name<'_>,
    sorts: &[Sexp],
    sort: &Sexp,
) -> Result<Table, ScriptRefusal>
    ensures found { IfOk result (λ t. t.entries ≡ after table.entries (declare (symbol_is name.entry) (map expr sorts.now) (expr sort.now))) }
    ensures fits { IfOk result (λ t. least (declaration_faults table.entries (symbol_is name.entry) (map expr sorts.now) (expr sort.now)) ≡ None) }
    ensures refused { IfErr result (λ e. IsScriptRefused e (least (declaration_faults table.entries (symbol_is name.entry) (map expr sorts.now) (expr sort.now)))) }
{
    if let Some(e) = declaration_refusal(&table, name, sorts, sort) {
        return Err(e);
    }
    let Ok(table) = table.declare(alloc, name.text, sorts.len() as u64, sort_or_int(sort)) else {
        return Err(ScriptRefusal::Memory);
    };
    Ok(table)
}

/// The first of a fault and those of a definition, but for those of its term.
pub fn with_definition_faults(
    found: Option<ScriptRefusal>,
    table: &Table,
    name: Name<'_>,
    arguments: &[Sexp],
    sort: &Sexp,
) -> Option<ScriptRefusal>
    ensures exact { result ≡ least_from found (definition_faults table.now.entries (symbol_is name.entry) (map expr arguments.now) (expr sort.now)) }
{
    let found = with_name_fault(found, table, name);
    let found = with_argument_faults(found, arguments);
    with_sort_fault(found, sort, true)
}

/// The first of a fault and that of a name.
fn with_name_fault(
    found: Option<ScriptRefusal>,
    table: &Table,
    name: Name<'_>,
) -> Option<ScriptRefusal>
    ensures exact { result ≡ least_from found (name_faults table.now.entries (symbol_is name.entry)) }
{
    if is_reserved(name.text) || table.contains(name.text) {
        return Some(sooner(found, ScriptRefusal::Redeclared(name.at)));
    }
    found
}

/// The first of a fault and that of one symbol too many, at this offset.
fn with_many_fault(found: Option<ScriptRefusal>, table: &Table, at: u64) -> Option<ScriptRefusal>
    ensures exact { (x : Symbol) → x.at ≡ at → result ≡ least_from found (many_faults table.now.entries x) }
{
    if table.declared() >= MOST {
        return Some(sooner(found, ScriptRefusal::Many(at)));
    }
    found
}

/// The first of a fault and those of the sorts of arguments.
fn with_sort_faults(found: Option<ScriptRefusal>, sorts: &[Sexp]) -> Option<ScriptRefusal>
    ensures exact { result ≡ least_from found (flat_map (sort_faults false) (map expr sorts.now)) }
{
    let mut found = found;
    let mut rest = sorts;
    while let Some((sort, behind)) = rest.split_first() {
        found = with_sort_fault(found, sort, false);
        rest = behind;
    }
    found
}

/// The first of a fault and those of the arguments of a definition.
fn with_argument_faults(found: Option<ScriptRefusal>, arguments: &[Sexp]) -> Option<ScriptRefusal>
    ensures exact { result ≡ least_from found (flat_map argument_faults (map expr arguments.now)) }
{
    let mut found = found;
    let mut rest = arguments;
    while let Some((argument, behind)) = rest.split_first() {
        found = with_argument_fault(found, argument);
        rest = behind;
    }
    found
}

/// The first of a fault and that of an argument of a definition.
fn with_argument_fault(found: Option<ScriptRefusal>, e: &Sexp) -> Option<ScriptRefusal>
    ensures exact { result ≡ least_from found (argument_faults (expr e.now)) }
{
    let Some(pair) = members(e) else {
        return found;
    };
    let Some((_, behind)) = pair.split_first() else {
        return found;
    };
    let Some((sort, end)) = behind.split_first() else {
        return found;
    };
    if !end.is_empty() {
        return found;
    }
    with_sort_fault(found, sort, false)
}

/// The first of a fault and that of what stands for a sort: Int, and Bool where that is allowed too.
fn with_sort_fault(found: Option<ScriptRefusal>, e: &Sexp, bool_too: bool) -> Option<ScriptRefusal>
    ensures exact { result ≡ least_from found (sort_faults bool_too (expr e.now)) }
{
    let fits = match read_sort(e) {
        Some(Sort::Int) => true,
        Some(Sort::Bool) => bool_too,
        None => false,
    };
    if fits {
        return found;
    }
    Some(sooner(found, ScriptRefusal::Profile(place(e))))
}

/// The sort that an S-expression is; Int where it is none.
pub fn sort_or_int(e: &Sexp) -> Sort
    ensures exact { result ≡ or_int (sort_of (expr e.now)) }
{
    read_sort(e).unwrap_or(Sort::Int)
}

/// The sort that an S-expression is.
pub fn read_sort(e: &Sexp) -> Option<Sort>
    ensures exact { result ≡ sort_of (expr e.now) }
{
    let name = symbol(e)?;
    if name.text == b"Int".as_slice() {
        return Some(Sort::Int);
    }
    if name.text == b"Bool".as_slice() {
        return Some(Sort::Bool);
    }
    None
}

/// The offset of the first byte of an S-expression.
#[tactic(auto, using(crate::proofs::Forms::views))]
pub fn place(e: &Sexp) -> u64
    ensures exact { result ≡ place_of (expr e.now) }
{
    match e {
        Sexp::Atom(a) => a.at,
        Sexp::List(at, _) => *at,
    }
}
