// A script from its bytes to its symbols, or to its refusal: that of its tokens goes before that of its commands.

ghost use Rattle.smt_lists.specs.First.{IsFirstListRefusal};
ghost use Rattle.smt_reader.specs.Scripts.{IsTaken, RefusesScript, as_script};
ghost use Rattle.smt_lists.specs.Expressions.{expr};
ghost use Rattle.smt_reader.specs.Read.{read_as};
ghost use Rattle.std.specs.Prelude.{◌≡◌, IfErr, IfOk, map};

use linear_term::Memory;
use smt_commands::{ScriptRefusal, Table};
use smt_division::without_division;
use smt_lists::{ReadRefusal, Sexp, lists};
use smt_shorthand::written_out;
use smt_typing::{Terms, walk};
use sqlite_items::Items;
use std::alloc::Global;

/// The symbols of a script, or its refusal.
#[tactic(auto, using(crate::proofs::SymbolTexts::taken, crate::proofs::SymbolTexts::refused_tokens, crate::proofs::SymbolTexts::refused_commands))]
pub fn read<T: Terms>(alloc: Global, terms: &T, bytes: &[u8]) -> Result<Table, ScriptRefusal>
    ensures taken { IfOk result (λ t. IsTaken (record { faults = T.faults; uses = T.occurs }) bytes.now t.entries) }
    ensures refused { IfErr result (λ e. RefusesScript (record { faults = T.faults; uses = T.occurs }) bytes.now e) }
{
    match lists(alloc, bytes) {
        Ok(lists) => match read_as(alloc, lists) {
            Ok(commands) => walk(alloc, terms, commands.as_slice()),
            Err(Memory) => Err(ScriptRefusal::Memory),
        },
        Err(e) => Err(as_script(e)),
    }
}

/// The commands that lists are read as: those that are short for others are written out, and division is taken away.
pub(crate) fn read_as(alloc: Global, lists: Items<Sexp>) -> Result<Items<Sexp>, Memory>
    ensures exact { IfOk result (λ commands. map expr commands ≡ read_as lists) }
{
    let commands = written_out(alloc, lists)?;
    without_division(alloc, commands)
}

/// A refusal of the tokens as one of the script.
pub(crate) fn as_script(e: ReadRefusal) -> ScriptRefusal
    ensures exact { result ≡ as_script e }
{
    match e {
        ReadRefusal::Syntax(at) => ScriptRefusal::Syntax(at),
        ReadRefusal::Deep(at) => ScriptRefusal::Deep(at),
        ReadRefusal::Memory => ScriptRefusal::Memory,
    }
}
