// Lists of names: identifier { `,` identifier }

ghost use Rattle.pri_reader.specs.MachineStates.{NamesFor, a_name, names_more};
ghost use Rattle.pri_reader.specs.BlockReading.{PassesStates, StopsReader};
ghost use Rattle.pri_reader.specs.Reading.{NotNext};
ghost use Rattle.pri_tokens.specs.declared.terminals.Terminal.TheVariants as t;
ghost use Rattle.std.specs.Prelude.{◌<◌, [], IfErr, IfOk, length};

use crate::cursor::{after, name, sign};
use crate::tree::{Name, ReadRefusal};
use pri_tokens::{Lexeme, Terminal};
use sqlite_items::Items;
use std::alloc::Global;

/// The names, up to the first token that is no `,`, and the tokens from there on.
pub fn names<'a>(
    alloc: Global,
    bytes: &[u8],
    tokens: &'a [Lexeme],
) -> Result<(Items<Name>, &'a [Lexeme]), ReadRefusal>
    ensures read { IfOk result (λ x. PassesStates bytes.now tokens.now (λ for. a_name for []) x.1.now (λ for. names_more for x.0)) }
    ensures refused { IfErr result (StopsReader bytes.now {A = NamesFor} (λ for. a_name for []) tokens.now) }
    ensures ended { IfOk result (λ x. NotNext t.Comma x.1.now) }
    ensures shorter { IfOk result (λ x. length x.1.now < length tokens.now) }
{
    let mut names = Items::new(alloc);
    let mut inner = tokens;
    'names: loop {
        let (identifier, rest) = sign(bytes, inner, Terminal::Identifier)?;
        names.push(name(alloc, bytes, &identifier)?)?;
        let Some((_, more)) = after(rest, Terminal::Comma) else {
            return Ok((names, rest));
        };
        inner = more;
    }
}
