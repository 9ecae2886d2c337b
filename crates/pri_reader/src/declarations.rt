// The blocks of functions and predicates: `{` { int item { `,` item } `;` } `}`, for predicates without int.

ghost use Rattle.pri_reader.specs.BlockReading.{BeginsLine, IsBlock, IsNoBlock, NoLine};
ghost use Rattle.pri_reader.specs.Grammar.{items_block};
ghost use Rattle.pri_reader.specs.Reading.{NotNext};
ghost use Rattle.pri_tokens.specs.declared.terminals.Terminal.TheVariants as t;
ghost use Rattle.std.specs.Prelude.{◌≡◌, ◌≤◌, ◌<◌, ◌^◌, IfErr, IfOk, length};

use crate::classes::Heading;
use crate::cursor::{after, sign};
use crate::items::items;
use crate::tree::{Block, Item, ReadRefusal};
use pri_tokens::{Lexeme, Terminal};
use sqlite_items::Items;
use std::alloc::Global;

/// A block of functions, or of predicates, from its `{` on, and the tokens after its `}`.
pub fn declarations<'a>(
    alloc: Global,
    bytes: &[u8],
    tokens: &'a [Lexeme],
    at: u64,
    typed: bool,
) -> Result<(Block, &'a [Lexeme]), ReadRefusal>
    requires { length tokens.now < 2 ^ 32 }
    ensures read { IfOk result (λ x. IsBlock bytes.now (Heading.Items typed) at x.0 tokens.now x.1.now) }
    ensures refused { IfErr result (IsNoBlock bytes.now (Heading.Items typed) at tokens.now) }
    ensures shorter { IfOk result (λ x. length x.1.now < length tokens.now) }
{
    let (_, mut inner) = sign(bytes, tokens, Terminal::OpenBrace)?;
    let mut all = Items::new(alloc);
    'lines: loop {
        if let Some((_, rest)) = after(inner, Terminal::CloseBrace) {
            return Ok((block_of(typed, at, all), rest));
        }
        let line = line(bytes, inner, typed)?;
        let (more, behind) = items(alloc, bytes, line)?;
        all.append(more)?;
        inner = behind;
    }
}

/// The tokens of a line's items: after its int, which only lines of functions have.
fn line<'a>(bytes: &[u8], tokens: &'a [Lexeme], typed: bool) -> Result<&'a [Lexeme], ReadRefusal>
    requires { NotNext t.CloseBrace tokens.now }
    ensures read { IfOk result (λ rest. BeginsLine bytes.now typed tokens.now rest.now) }
    ensures refused { IfErr result (NoLine bytes.now typed tokens.now) }
    ensures shorter { IfOk result (λ rest. length rest.now ≤ length tokens.now) }
{
    if !typed {
        return Ok(tokens);
    }
    let (_, rest) = sign(bytes, tokens, Terminal::Int)?;
    Ok(rest)
}

/// The block of these items.
fn block_of(typed: bool, at: u64, items: Items<Item>) -> Block
    ensures { result ≡ items_block typed at items }
{
    if typed {
        Block::Functions(at, items)
    } else {
        Block::Predicates(at, items)
    }
}
