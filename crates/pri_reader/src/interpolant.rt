// The block of an interpolant: `{` set `;` set { `;` set } `}`, set = identifier { `,` identifier }

ghost use Rattle.pri_reader.specs.BlockReading.{IsBlock, IsNoBlock};
ghost use Rattle.pri_reader.specs.Grammar.{set_at};
ghost use Rattle.std.specs.Prelude.{◌≡◌, ◌<◌, IfErr, IfOk, length};

use crate::classes::Heading;
use crate::cursor::{after, sign};
use crate::names::names;
use crate::tree::{Block, Name, NameSet, ReadRefusal};
use pri_tokens::{Lexeme, Terminal};
use sqlite_items::Items;
use std::alloc::Global;

/// The block, from its `{` on, and the tokens after its `}`.
pub fn interpolant<'a>(
    alloc: Global,
    bytes: &[u8],
    tokens: &'a [Lexeme],
    at: u64,
) -> Result<(Block, &'a [Lexeme]), ReadRefusal>
    ensures read { IfOk result (λ x. IsBlock bytes.now Heading.Interpolant at x.0 tokens.now x.1.now) }
    ensures refused { IfErr result (IsNoBlock bytes.now Heading.Interpolant at tokens.now) }
    ensures shorter { IfOk result (λ x. length x.1.now < length tokens.now) }
{
    let (_, mut inner) = sign(bytes, tokens, Terminal::OpenBrace)?;
    let mut sets = Items::new(alloc);
    let mut start = None;
    'sets: loop {
        let (names, rest) = names(alloc, bytes, inner)?;
        let only = sets.is_empty();
        let at_set = place(start, &names);
        sets.push(NameSet { at: at_set, names })?;
        let Some((semicolon, more)) = after(rest, Terminal::Semicolon) else {
            let (close, behind) = sign(bytes, rest, Terminal::CloseBrace)?;
            if only {
                return Err(ReadRefusal::Syntax(close.at));
            }
            return Ok((Block::Interpolant(at, sets), behind));
        };
        start = Some(semicolon.at);
        inner = more;
    }
}

/// The offset of a set: that of the `;` before it, or of its first name.
fn place(start: Option<u64>, names: &Items<Name>) -> u64
    ensures { result ≡ set_at start names.now }
{
    if let Some(at) = start {
        return at;
    }
    match names.get(0) {
        Some(first) => first.at,
        None => 0,
    }
}
