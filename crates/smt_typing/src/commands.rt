// The commands of a script taken in order, up to its first refusal.

ghost use Rattle.smt_commands.specs.Commands.{assert, check_sat, declare, define};
ghost use Rattle.smt_commands.specs.Faults.{claim_faults, form, pop_faults, push_faults, refusal_of};
ghost use Rattle.smt_commands.specs.Least.{IsScriptRefused, least};
ghost use Rattle.smt_commands.specs.Levels.{popped, pushed};
ghost use Rattle.smt_commands.specs.Views.{form_of, symbol_is};
ghost use Rattle.smt_typing.specs.Steps.{PassesCommand, StopsCommand, is_exit, symbols_of};
ghost use Rattle.smt_lists.specs.Expressions.{expr, place_of};
ghost use Rattle.std.specs.Option.{option_map};
ghost use Rattle.std.specs.Prelude.{◌≡◌, [], Some, None, IfOk, IfErr, length, map};

use crate::terms::{Head, Terms};
use linear_term::Memory;
use smt_commands::{
    Command, Name, Scopes, ScriptRefusal, Table, place, read_command, read_sort, sort_or_int,
    with_definition_faults,
};
use smt_lists::Sexp;
use smt_terms::Sort;
use std::alloc::Global;

/// How many levels may be open.
const MOST_LEVELS: u128 = 10_000;

/// The symbols after a command, and whether it ends the script.
#[derive(Drop)]
struct Step {
    scopes: Scopes,
    ends: bool,
}

/// The symbols that are in force after a script of these commands, or its refusal.
#[tactic(auto, using(crate::proofs::Further::walk_on, crate::proofs::Further::walk_end, crate::proofs::Further::walk_stops, crate::proofs::Further::symbols_on, crate::proofs::Further::symbols_end))]
pub fn walk<T: Terms>(alloc: Global, terms: &T, commands: &[Sexp]) -> Result<Table, ScriptRefusal>
    ensures fits { IfOk result (λ t. refusal_of (record { faults = T.faults; uses = T.occurs }) (map expr commands.now) ≡ None) }
    ensures symbols { IfOk result (λ t. t.entries ≡ symbols_of (map expr commands.now)) }
    ensures refused { IfErr result (λ e. IsScriptRefused e (refusal_of (record { faults = T.faults; uses = T.occurs }) (map expr commands.now))) }
{
    let mut scopes = Scopes::new(alloc);
    let mut rest = commands;
    while let Some((command, behind)) = rest.split_first() {
        let step = take_command(alloc, terms, scopes, command)?;
        scopes = step.scopes;
        if step.ends {
            return Ok(scopes.into_table());
        }
        rest = behind;
    }
    Ok(scopes.into_table())
}

/// The symbols after what may be a command, or its first fault.
#[tactic(auto, using(crate::proofs::CommandForms::forms))]
fn take_command<T: Terms>(
    alloc: Global,
    terms: &T,
    scopes: Scopes,
    e: &Sexp,
) -> Result<Step, ScriptRefusal>
    ensures fits { IfOk result (λ s. PassesCommand (record { faults = T.faults; uses = T.occurs }) scopes (place_of (expr e.now)) (form (expr e.now)) s.scopes) }
    ensures ends { IfOk result (λ s. s.ends ≡ is_exit (form (expr e.now))) }
    ensures refused { IfErr result (λ r. StopsCommand (record { faults = T.faults; uses = T.occurs }) scopes (place_of (expr e.now)) (form (expr e.now)) r) }
{
    let Some(command) = command_in(e) else {
        return Err(ScriptRefusal::Profile(place(e)));
    };
    let scopes = behind_command(alloc, terms, scopes, place(e), command)?;
    Ok(Step {
        scopes,
        ends: is_exit(command),
    })
}

/// The command that an S-expression is.
#[tactic(auto, using(crate::proofs::CommandForms::forms))]
pub fn command_in(e: &Sexp) -> Option<Command<'_>>
    ensures exact { option_map form_of result ≡ form (expr e.now) }
{
    match e {
        Sexp::Atom(_) => None,
        Sexp::List(_, members) => read_command(members.as_slice()),
    }
}

/// Whether a command ends the script.
pub fn is_exit(command: Command<'_>) -> bool
    ensures exact { result ≡ is_exit (Some (form_of command.entry)) }
{
    match command {
        Command::Exit => true,
        Command::Skip
        | Command::Say(_)
        | Command::Declare(_, _, _)
        | Command::Define(_, _, _, _)
        | Command::Assert(_)
        | Command::CheckSat(_)
        | Command::Push(_)
        | Command::Pop(_)
        | Command::Reset => false,
    }
}

/// The symbols after a command whose `(` is at this offset, or its first fault.
#[tactic(auto, using(crate::proofs::CommandForms::declared_passes, crate::proofs::CommandForms::declared_stops, crate::proofs::CommandForms::pushed_passes, crate::proofs::CommandForms::pushed_stops, crate::proofs::CommandForms::popped_passes, crate::proofs::CommandForms::popped_stops))]
fn behind_command<T: Terms>(
    alloc: Global,
    terms: &T,
    scopes: Scopes,
    at: u64,
    command: Command<'_>,
) -> Result<Scopes, ScriptRefusal>
    ensures fits { IfOk result (λ s. PassesCommand (record { faults = T.faults; uses = T.occurs }) scopes at (Some (form_of command.entry)) s) }
    ensures refused { IfErr result (λ r. StopsCommand (record { faults = T.faults; uses = T.occurs }) scopes at (Some (form_of command.entry)) r) }
{
    match command {
        Command::Skip | Command::Say(_) | Command::Exit => Ok(scopes),
        Command::Declare(name, sorts, sort) => scopes.declare(alloc, name, sorts, sort),
        Command::Define(name, arguments, sort, term) => {
            define(alloc, terms, scopes, at, name, arguments, sort, term)
        }
        Command::Assert(term) => assertion(alloc, terms, scopes, at, term),
        Command::CheckSat(assumed) => assumptions(alloc, terms, scopes, at, assumed),
        Command::Push(count) => push(scopes, at, count),
        Command::Pop(count) => pop(scopes, at, count),
        Command::Reset => Ok(Scopes::new(alloc)),
    }
}

/// The symbols after this many levels more, or the fault that those are too many.
#[tactic(auto, using(crate::proofs::CommandForms::push_fits, crate::proofs::CommandForms::push_many, crate::proofs::CommandForms::push_more))]
fn push(scopes: Scopes, at: u64, count: u128) -> Result<Scopes, ScriptRefusal>
    ensures fits { IfOk result (λ s. push_faults (length scopes.below) count at ≡ []) }
    ensures symbols { IfOk result (λ s. s ≡ pushed count scopes) }
    ensures refused { IfErr result (λ e. IsScriptRefused e (least (push_faults (length scopes.below) count at))) }
{
    if count > MOST_LEVELS {
        return Err(ScriptRefusal::Deep(at));
    }
    if scopes.levels() as u128 > MOST_LEVELS - count {
        return Err(ScriptRefusal::Deep(at));
    }
    match scopes.push(count as u64) {
        Ok(scopes) => Ok(scopes),
        Err(Memory) => Err(ScriptRefusal::Memory),
    }
}

/// The symbols after this many levels fewer, or the fault that fewer are open.
#[tactic(auto, using(crate::proofs::CommandForms::pop_fits, crate::proofs::CommandForms::pop_stops))]
fn pop(scopes: Scopes, at: u64, count: u128) -> Result<Scopes, ScriptRefusal>
    ensures fits { IfOk result (λ s. pop_faults (length scopes.below) count at ≡ []) }
    ensures symbols { IfOk result (λ s. s ≡ popped count scopes) }
    ensures refused { IfErr result (λ e. IsScriptRefused e (least (pop_faults (length scopes.below) count at))) }
{
    if count > scopes.levels() as u128 {
        return Err(ScriptRefusal::Profile(at));
    }
    Ok(scopes.pop(count as u64))
}

/// The symbols after a definition whose `(` is at this offset, or its first fault.
fn define<T: Terms>(
    alloc: Global,
    terms: &T,
    scopes: Scopes,
    at: u64,
    name: Name<'_>,
    arguments: &[Sexp],
    sort: &Sexp,
    term: &Sexp,
) -> Result<Scopes, ScriptRefusal>
    ensures fits { IfOk result (λ s. PassesCommand (record { faults = T.faults; uses = T.occurs }) scopes at (Some (define (symbol_is name.entry) (map expr arguments.now) (expr sort.now) (expr term.now))) s) }
    ensures refused { IfErr result (λ r. StopsCommand (record { faults = T.faults; uses = T.occurs }) scopes at (Some (define (symbol_is name.entry) (map expr arguments.now) (expr sort.now) (expr term.now))) r) }
{
    let table = scopes.table();
    let found = with_definition_faults(None, table, name, arguments, sort);
    let head = Head {
        at,
        text: name.text,
        arguments,
        sort: read_sort(sort),
    };
    let Ok(found) = terms.with_body_faults(alloc, found, table, head, term) else {
        return Err(ScriptRefusal::Memory);
    };
    if let Some(e) = found {
        return Err(e);
    }
    let Ok(scopes) = scopes.define(alloc, name.text, arguments.len() as u64, sort_or_int(sort))
    else {
        return Err(ScriptRefusal::Memory);
    };
    Ok(scopes)
}

/// The symbols after an assertion, or its first fault.
fn assertion<T: Terms>(
    alloc: Global,
    terms: &T,
    scopes: Scopes,
    at: u64,
    term: &Sexp,
) -> Result<Scopes, ScriptRefusal>
    ensures fits { IfOk result (λ s. PassesCommand (record { faults = T.faults; uses = T.occurs }) scopes at (Some (assert (expr term.now))) s) }
    ensures refused { IfErr result (λ r. StopsCommand (record { faults = T.faults; uses = T.occurs }) scopes at (Some (assert (expr term.now))) r) }
{
    let Ok(found) = terms.with_faults(alloc, None, scopes.table(), Sort::Bool, term) else {
        return Err(ScriptRefusal::Memory);
    };
    match found {
        None => Ok(scopes),
        Some(e) => Err(e),
    }
}

/// The symbols after a check with these assumed terms, or their first fault.
#[tactic(auto, using(crate::proofs::CommandForms::assumed_passes, crate::proofs::CommandForms::assumed_stops))]
fn assumptions<T: Terms>(
    alloc: Global,
    terms: &T,
    scopes: Scopes,
    at: u64,
    assumed: &[Sexp],
) -> Result<Scopes, ScriptRefusal>
    ensures fits { IfOk result (λ s. PassesCommand (record { faults = T.faults; uses = T.occurs }) scopes at (Some (check_sat (map expr assumed.now))) s) }
    ensures refused { IfErr result (λ r. StopsCommand (record { faults = T.faults; uses = T.occurs }) scopes at (Some (check_sat (map expr assumed.now))) r) }
{
    let Ok(found) = first_fault(alloc, terms, scopes.table(), assumed) else {
        return Err(ScriptRefusal::Memory);
    };
    match found {
        None => Ok(scopes),
        Some(e) => Err(e),
    }
}

/// The first fault of terms that are assumed.
#[tactic(auto, using(crate::proofs::CommandForms::claims_on))]
fn first_fault<T: Terms>(
    alloc: Global,
    terms: &T,
    table: &Table,
    claims: &[Sexp],
) -> Result<Option<ScriptRefusal>, Memory>
    ensures { IfOk result (λ f. f ≡ least (claim_faults (record { faults = T.faults; uses = T.occurs }) table.now.entries (map expr claims.now))) }
{
    let mut found = None;
    let mut rest = claims;
    while let Some((claim, behind)) = rest.split_first() {
        found = terms.with_faults(alloc, found, table, Sort::Bool, claim)?;
        rest = behind;
    }
    Ok(found)
}
