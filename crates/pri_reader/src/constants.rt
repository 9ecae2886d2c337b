// The blocks of constants: `{` { type identifier { `,` identifier } `;` } `}`

ghost use Rattle.pri_reader.specs.BlockReading.{IsBlock, IsNoBlock, PassesNames, StopsReader};
ghost use Rattle.pri_reader.specs.Grammar.{constants_block};
ghost use Rattle.pri_reader.specs.MachineStates.{NamesFor, a_name};
ghost use Rattle.pri_reader.specs.Reading.{NotNext};
ghost use Rattle.pri_tokens.specs.declared.terminals.Terminal.TheVariants as t;
ghost use Rattle.std.specs.Prelude.{◌≡◌, ◌<◌, [], IfErr, IfOk, length};

use crate::classes::Heading;
use crate::cursor::{after, name, sign};
use crate::tree::{Block, Declared, ReadRefusal, TypeName};
use crate::types::type_name;
use pri_tokens::{Lexeme, Terminal};
use sqlite_items::Items;
use std::alloc::Global;

/// A block of constants, from its `{` on, and the tokens after its `}`.
pub fn constants<'a>(
    alloc: Global,
    bytes: &[u8],
    tokens: &'a [Lexeme],
    at: u64,
    universal: bool,
) -> Result<(Block, &'a [Lexeme]), ReadRefusal>
    ensures read { IfOk result (λ x. IsBlock bytes.now (Heading.Constants universal) at x.0 tokens.now x.1.now) }
    ensures refused { IfErr result (IsNoBlock bytes.now (Heading.Constants universal) at tokens.now) }
    ensures shorter { IfOk result (λ x. length x.1.now < length tokens.now) }
{
    let (_, mut inner) = sign(bytes, tokens, Terminal::OpenBrace)?;
    let mut all = Items::new(alloc);
    'lines: loop {
        if let Some((_, rest)) = after(inner, Terminal::CloseBrace) {
            return Ok((block_of(universal, at, all), rest));
        }
        let (sort, first) = type_name(bytes, inner)?;
        let (more, rest) = names_of_type(alloc, bytes, first, sort)?;
        let (_, behind) = sign(bytes, rest, Terminal::Semicolon)?;
        all.append(more)?;
        inner = behind;
    }
}

/// The names of a line of this type, up to the first token that is no `,`, and the tokens from there on.
fn names_of_type<'a>(
    alloc: Global,
    bytes: &[u8],
    tokens: &'a [Lexeme],
    sort: TypeName,
) -> Result<(Items<Declared>, &'a [Lexeme]), ReadRefusal>
    ensures read { IfOk result (λ x. PassesNames bytes.now sort x.0 tokens.now x.1.now) }
    ensures refused { IfErr result (StopsReader bytes.now {A = NamesFor} (λ for. a_name for []) tokens.now) }
    ensures ended { IfOk result (λ x. NotNext t.Comma x.1.now) }
    ensures shorter { IfOk result (λ x. length x.1.now < length tokens.now) }
{
    let mut names = Items::new(alloc);
    let mut inner = tokens;
    'names: loop {
        let (identifier, rest) = sign(bytes, inner, Terminal::Identifier)?;
        let name = name(alloc, bytes, &identifier)?;
        names.push(Declared { sort, name })?;
        let Some((_, more)) = after(rest, Terminal::Comma) else {
            return Ok((names, rest));
        };
        inner = more;
    }
}

/// The block of these constants.
fn block_of(universal: bool, at: u64, names: Items<Declared>) -> Block
    ensures { result ≡ constants_block universal at names }
{
    if universal {
        Block::Universals(at, names)
    } else {
        Block::Existentials(at, names)
    }
}
