// The line of an error.

ghost use Rattle.job_dialogue.specs.Errors.{error_line, sentence};
ghost use Rattle.std.specs.Prelude.{◌≡◌, IfOk};

use crate::spots::Spot;
use linear_term::Memory;
use smt_commands::ScriptRefusal;
use std::alloc::Global;

/// The line of an error: where it is, and what.
pub(crate) fn error_line(alloc: Global, spot: Spot, e: ScriptRefusal) -> Result<Vec<u8>, Memory>
    ensures { IfOk result (λ text. text.items ≡ error_line spot e) }
{
    let line = spot.line.to_string(alloc)?;
    let column = spot.column.to_string(alloc)?;
    let mut text = Vec::from_slice(alloc, b"(error \"line ")?;
    text.extend_from_slice(line.as_bytes())?;
    text.extend_from_slice(b", column ")?;
    text.extend_from_slice(column.as_bytes())?;
    text.extend_from_slice(b": ")?;
    text.extend_from_slice(sentence(e))?;
    text.extend_from_slice(b"\")\n")?;
    Ok(text)
}

/// What is said of a refusal.
fn sentence(e: ScriptRefusal) -> &'static [u8]
    ensures { result.now ≡ sentence e }
{
    match e {
        ScriptRefusal::Syntax(_) => b"no command goes on like this, or it ends too early",
        ScriptRefusal::Literal(_) => b"a numeral above 2^127 - 1",
        ScriptRefusal::Deep(_) =>
            b"more than 200 lists within each other, or more than 10000 levels",
        ScriptRefusal::Undeclared(_) => b"a symbol that nothing in force declares or defines",
        ScriptRefusal::Redeclared(_) =>
            b"a symbol that is declared already, or the name of an operator",
        ScriptRefusal::Arity(_) => b"a wrong number of arguments",
        ScriptRefusal::Kind(_) => b"a term of the wrong sort",
        ScriptRefusal::NonLinear(_) => b"a product of two terms that are not built of numerals",
        ScriptRefusal::Many(_) => b"more than 1000 declared symbols in force",
        ScriptRefusal::Large => b"too many nodes or levels",
        ScriptRefusal::Profile(_) => b"not supported, or more levels are left than are open",
        ScriptRefusal::Memory => b"",
    }
}
