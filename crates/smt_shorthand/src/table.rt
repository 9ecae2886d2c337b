// The defined sorts that are in force, by assertion levels, and the commands that define them.

ghost use Rattle.smt_commands.specs.Commands.{CommandForm, members_of, symbol_of};
ghost use Rattle.smt_commands.specs.Views.{form_of, items_of};
ghost use Rattle.smt_lists.specs.Expressions.{expr};
ghost use Rattle.smt_shorthand.specs.Table.{after, definition_by, definition_in, definition_of, is_free, is_word, kept, parameters_in, with_sort};
ghost use Rattle.std.specs.Option.{option_map};
ghost use Rattle.std.specs.Prelude.{◌≡◌, [], IfOk, map};

use crate::sorts::{DefinedSort, find_sort, read_sense};
use base_texts::Texts;
use linear_term::Memory;
use smt_commands::{Command, members, symbol};
use smt_lists::Sexp;
use sqlite_items::Items;
use std::alloc::Global;

/// How many levels are open, and the defined sorts that are in force.
#[derive(Drop)]
pub struct SortTable {
    pub level: u128,
    pub sorts: Items<DefinedSort>,
}

/// The table with one more sort.
pub fn with_sort(table: SortTable, sort: DefinedSort) -> Result<SortTable, Memory>
    ensures { IfOk result (λ t. t ≡ with_sort table sort) }
{
    let SortTable { level, mut sorts } = table;
    sorts.push(sort)?;
    Ok(SortTable { level, sorts })
}

/// The table after a command that defines no sort.
pub fn after(
    alloc: Global,
    table: SortTable,
    command: Option<Command<'_>>,
) -> Result<SortTable, Memory>
    ensures { IfOk result (λ t. t ≡ after table (option_map form_of command.entry)) }
{
    match command {
        Some(Command::Push(count)) => {
            let SortTable { level, sorts } = table;
            let level = level.saturating_add(count);
            Ok(SortTable { level, sorts })
        }
        Some(Command::Pop(count)) => {
            let level = table.level.saturating_sub(count);
            let sorts = kept(alloc, level, table.sorts.as_slice())?;
            Ok(SortTable { level, sorts })
        }
        Some(Command::Reset) => Ok(SortTable {
            level: 0,
            sorts: Items::new(alloc),
        }),
        Some(
            Command::Skip
            | Command::Say(_)
            | Command::Declare(_, _, _)
            | Command::Define(_, _, _, _)
            | Command::Assert(_)
            | Command::CheckSat(_)
            | Command::Exit,
        )
        | None => Ok(table),
    }
}

/// The sorts that were defined at this level or below.
fn kept(alloc: Global, level: u128, sorts: &[DefinedSort]) -> Result<Items<DefinedSort>, Memory>
    ensures { IfOk result (λ ds. ds ≡ kept level sorts.now) }
{
    let mut out = Items::new(alloc);
    for sort in sorts {
        if sort.level <= level {
            out.push(copy_sort(alloc, sort)?)?;
        }
    }
    Ok(out)
}

/// A defined sort once more.
fn copy_sort(alloc: Global, sort: &DefinedSort) -> Result<DefinedSort, Memory>
    ensures { IfOk result (λ d. d ≡ sort.now) }
{
    Ok(DefinedSort {
        text: Items::from_slice(alloc, sort.text.as_slice())?,
        arity: sort.arity,
        sense: sort.sense,
        level: sort.level,
    })
}

/// The sort that a command defines, where it is a `define-sort` of a new name.
pub fn definition(alloc: Global, table: &SortTable, e: &Sexp) -> Result<Option<DefinedSort>, Memory>
    ensures { IfOk result (λ d. d ≡ definition_of table.now (expr e.now)) }
{
    match members(e) {
        Some(members) => definition_in(alloc, table, members),
        None => Ok(None),
    }
}

/// The sort that the command of these members defines.
fn definition_in(
    alloc: Global,
    table: &SortTable,
    members: &[Sexp],
) -> Result<Option<DefinedSort>, Memory>
    ensures { IfOk result (λ d. d ≡ definition_in table.now (map expr members.now)) }
{
    let [word, name, parameters, sort] = members else {
        return Ok(None);
    };
    if !is_word(word, b"define-sort".as_slice()) {
        return Ok(None);
    }
    definition_by(alloc, table, name, parameters, sort)
}

/// The sort of a new name, of parameters, and of what it is short for.
fn definition_by(
    alloc: Global,
    table: &SortTable,
    name: &Sexp,
    parameters: &Sexp,
    sort: &Sexp,
) -> Result<Option<DefinedSort>, Memory>
    ensures { IfOk result (λ d. d ≡ definition_by table.now (symbol_of (expr name.now)) (members_of (expr parameters.now)) (expr sort.now)) }
{
    let Some(name) = symbol(name) else {
        return Ok(None);
    };
    let Some(parameters) = members(parameters) else {
        return Ok(None);
    };
    if !is_free(table, name.text) {
        return Ok(None);
    }
    let Some(parameters) = read_parameters(alloc, parameters)? else {
        return Ok(None);
    };
    let sense = read_sense(alloc, table.sorts.as_slice(), &parameters, sort)?;
    Ok(Some(DefinedSort {
        text: Items::from_slice(alloc, name.text)?,
        arity: parameters.len(),
        sense,
        level: table.level,
    }))
}

/// Whether a sort may be defined by this name.
fn is_free(table: &SortTable, text: &[u8]) -> bool
    ensures { result ≡ is_free table.now text.now }
{
    if text == b"Int".as_slice() || text == b"Bool".as_slice() {
        return false;
    }
    find_sort(table.sorts.as_slice(), text).is_none()
}

/// The names of parameters, if all are symbols and different.
fn read_parameters(alloc: Global, es: &[Sexp]) -> Result<Option<Texts>, Memory>
    ensures { IfOk result (λ ps. ps ≡ parameters_in [] (map expr es.now)) }
{
    let mut names = Texts::new(alloc);
    for e in es {
        let Some(name) = symbol(e) else {
            return Ok(None);
        };
        if !names.add(alloc, name.text)? {
            return Ok(None);
        }
    }
    Ok(Some(names))
}

/// Whether an S-expression is the symbol of this text.
pub fn is_word(e: &Sexp, text: &[u8]) -> bool
    ensures { result ≡ is_word text.now (symbol_of (expr e.now)) }
{
    match symbol(e) {
        Some(name) => name.text == text,
        None => false,
    }
}
