// Scripts without `define-sort` (SMT-LIB 2.6, section 4.2.3): what a defined sort comes to stands in its place.

ghost use Rattle.smt_commands.specs.Commands.{members_of};
ghost use Rattle.smt_commands.specs.Faults.{form};
ghost use Rattle.smt_commands.specs.Views.{form_of};
ghost use Rattle.smt_lists.specs.Expressions.{Expr, expr};
ghost use Rattle.smt_shorthand.specs.Defining.{begins_with, commands_from, defines_sort, sorts_written_out, told};
ghost use Rattle.smt_shorthand.specs.Table.{no_sorts};
ghost use Rattle.std.specs.List.{list_any};
ghost use Rattle.std.specs.Option.{option_map};
ghost use Rattle.std.specs.Prelude.{◌≡◌, ◌∷◌, List, IfOk, map};

use crate::places::{Part, Row};
use crate::resolving::resolve;
use crate::table::{SortTable, after, definition, is_word, with_sort};
use linear_term::Memory;
use smt_commands::{Command, members, read_command};
use smt_lists::Sexp;
use sqlite_items::Items;
use std::alloc::Global;

/// The commands so far, and the table after them.
#[derive(Drop)]
pub struct Progress {
    pub table: SortTable,
    pub out: Items<Sexp>,
}

/// The commands of a script with each defined sort written out, and without the definitions of sorts.
pub fn sorts_written_out(alloc: Global, lists: Items<Sexp>) -> Result<Items<Sexp>, Memory>
    ensures { IfOk result (λ out. map expr out ≡ sorts_written_out (map expr lists)) }
{
    if !some_defines_sort(lists.as_slice()) {
        return Ok(lists);
    }
    write_sorts_out(alloc, lists.as_slice())
}

/// Whether some command begins as the definition of a sort.
fn some_defines_sort(es: &[Sexp]) -> bool
    ensures { result ≡ list_any defines_sort (map expr es.now) }
{
    for e in es {
        if defines_sort(e) {
            return true;
        }
    }
    false
}

/// Whether a command begins as the definition of a sort.
pub fn defines_sort(e: &Sexp) -> bool
    ensures { result ≡ defines_sort (expr e.now) }
{
    begins_with(e, b"define-sort".as_slice())
}

/// Whether an S-expression is a list that begins with this word.
pub fn begins_with(e: &Sexp, text: &[u8]) -> bool
    ensures { result ≡ begins_with text.now (members_of (expr e.now)) }
{
    let Some(members) = members(e) else {
        return false;
    };
    match members.split_first() {
        Some((word, _)) => is_word(word, text),
        None => false,
    }
}

/// The commands, from the beginning on.
fn write_sorts_out(alloc: Global, es: &[Sexp]) -> Result<Items<Sexp>, Memory>
    ensures { IfOk result (λ out. map expr out ≡ commands_from no_sorts (map expr es.now)) }
{
    let mut progress = Progress {
        table: SortTable {
            level: 0,
            sorts: Items::new(alloc),
        },
        out: Items::new(alloc),
    };
    for e in es {
        progress = take_command(alloc, progress, e)?;
    }
    Ok(progress.out)
}

/// The commands and the table after one more command.
fn take_command(alloc: Global, progress: Progress, e: &Sexp) -> Result<Progress, Memory>
    ensures { IfOk result (λ p. (es : List Expr) → told p es ≡ told progress (expr e.now ∷ es)) }
{
    let Progress { table, mut out } = progress;
    match definition(alloc, &table, e)? {
        Some(sort) => {
            let table = with_sort(table, sort)?;
            Ok(Progress { table, out })
        }
        None => {
            let command = resolve(
                alloc,
                table.sorts.as_slice(),
                Part::Members(Row::Command),
                e,
            )?;
            out.push(command)?;
            let table = after(alloc, table, command_in(e))?;
            Ok(Progress { table, out })
        }
    }
}

/// The command that an S-expression is.
pub fn command_in(e: &Sexp) -> Option<Command<'_>>
    ensures { option_map form_of result ≡ form (expr e.now) }
{
    match members(e) {
        Some(members) => read_command(members),
        None => None,
    }
}
