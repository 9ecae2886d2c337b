// What a script asks to be told, command by command: the answers to its checks, a model and values there, why an answer is unknown,
// and what other commands say whatever comes before them.

ghost use Rattle.smt_commands.specs.Commands.{echoed, text_of};
ghost use Rattle.smt_commands.specs.Views.{form_of, saying_of};
ghost use Rattle.smt_lists.specs.Expressions.{expr};
ghost use Rattle.smt_reader.specs.Replies.{replies, reply_of, said_line};
ghost use Rattle.smt_typing.specs.Steps.{is_exit};
ghost use Rattle.std.specs.Prelude.{◌≡◌, Some, IfOk, false, map};

use linear_term::Memory;
use smt_commands::{Command, Saying, symbol};
use smt_lists::Sexp;
use smt_typing::{command_in, is_exit};
use sqlite_items::Items;
use std::alloc::Global;

/// What a command asks to be told.
#[derive(Drop)]
pub enum Reply {
    /// The answer to the next check.
    Check,
    /// This line.
    Says(Items<u8>),
    /// Why the answer to the last check is unknown.
    Reason,
    /// The model of the last check.
    Model,
    /// The values of these symbols there.
    Values(Items<Items<u8>>),
    /// Nothing, but the assertions or the symbols change: there is no model until the next check.
    Change,
}

/// What these commands ask to be told, in order, up to an `exit`. The one error is running out of memory.
#[tactic(auto, using(crate::proofs::Replying::replies_on, crate::proofs::Replying::replies_over, crate::proofs::Replying::replies_none, crate::proofs::Replying::replies_last, crate::proofs::Replying::replies_end))]
pub(crate) fn replies(alloc: Global, lists: &[Sexp]) -> Result<Items<Reply>, Memory>
    ensures { IfOk result (λ found. found ≡ replies (map expr lists.now)) }
{
    let mut found = Items::new(alloc);
    let mut rest = lists;
    while let Some((list, behind)) = rest.split_first() {
        rest = behind;
        let Some(command) = command_in(list) else {
            continue;
        };
        if is_exit(command) {
            return Ok(found);
        }
        let Some(reply) = reply_to(alloc, command)? else {
            continue;
        };
        found.push(reply)?;
    }
    Ok(found)
}

/// What a command asks to be told.
fn reply_to(alloc: Global, command: Command<'_>) -> Result<Option<Reply>, Memory>
    ensures { IfOk result (λ found. found ≡ reply_of (form_of command.entry)) }
{
    match command {
        Command::CheckSat(_) => Ok(Some(Reply::Check)),
        Command::Say(Saying::Reason) => Ok(Some(Reply::Reason)),
        Command::Say(Saying::Model) => Ok(Some(Reply::Model)),
        Command::Say(Saying::Values(symbols)) => Ok(Some(Reply::Values(texts(alloc, symbols)?))),
        Command::Say(saying) => Ok(Some(Reply::Says(said_line(alloc, saying)?))),
        Command::Skip | Command::Exit => Ok(None),
        Command::Declare(_, _, _)
        | Command::Define(_, _, _, _)
        | Command::Assert(_)
        | Command::Push(_)
        | Command::Pop(_)
        | Command::Reset => Ok(Some(Reply::Change)),
    }
}

/// The texts of these symbols.
fn texts(alloc: Global, symbols: &[Sexp]) -> Result<Items<Items<u8>>, Memory>
    ensures { IfOk result (λ texts. texts ≡ map text_of (map expr symbols.now)) }
{
    let mut texts = Items::new(alloc);
    for symbol in symbols {
        texts.push(text(alloc, symbol)?)?;
    }
    Ok(texts)
}

/// The text of a symbol.
fn text(alloc: Global, e: &Sexp) -> Result<Items<u8>, Memory>
    ensures { IfOk result (λ text. text ≡ text_of (expr e.now)) }
{
    match symbol(e) {
        Some(name) => Ok(Items::from_slice(alloc, name.text)?),
        None => Ok(Items::new(alloc)),
    }
}

/// The line of what a command says.
fn said_line(alloc: Global, saying: Saying<'_>) -> Result<Items<u8>, Memory>
    ensures { IfOk result (λ text. text ≡ said_line (saying_of saying.entry)) }
{
    match saying {
        Saying::Echoed(text) => quoted(alloc, text),
        Saying::Program => Ok(Items::from_slice(alloc, b"(:name \"princess\")\n")?),
        Saying::Version => Ok(Items::from_slice(alloc, b"(:version \"0.9.0\")\n")?),
        Saying::Authors => Ok(Items::from_slice(
            alloc,
            b"(:authors \"the authors of princess\")\n",
        )?),
        Saying::AfterError => Ok(Items::from_slice(alloc, b"(:error-behavior immediate-exit)\n")?),
        Saying::Unsupported => Ok(Items::from_slice(alloc, b"unsupported\n")?),
        Saying::Reason | Saying::Model | Saying::Values(_) => Ok(Items::new(alloc)),
    }
}

/// The line of a string, by what stands between its quotes.
fn quoted(alloc: Global, text: &[u8]) -> Result<Items<u8>, Memory>
    ensures { IfOk result (λ line. line ≡ said_line (echoed text.now)) }
{
    let mut line = Items::from_slice(alloc, b"\"")?;
    line.append(Items::from_slice(alloc, text)?)?;
    line.append(Items::from_slice(alloc, b"\"\n")?)?;
    Ok(line)
}
