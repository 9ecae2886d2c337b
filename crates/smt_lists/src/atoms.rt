// What a token that is no parenthesis says.

ghost use Rattle.smt_lists.specs.Atoms.{atom_of, inner, is_atom, span, whole};
ghost use Rattle.std.specs.Prelude.{◌≡◌, ◌≤◌, ◌+◌, true, length, IfOk};

use crate::tree::{Atom, AtomKind};
use base_numerals::numeral;
use smt_tokens::{Lexeme, Terminal};
use sqlite_items::Items;
use std::alloc::{AllocError, Global};

/// The atom that a token of this text is.
pub fn atom(alloc: Global, bytes: &[u8], x: Lexeme) -> Result<Atom, AllocError>
    ensures exact { IfOk result (λ a. a ≡ atom_of bytes.now x) }
{
    let kind = match x.terminal {
        Terminal::Numeral => match numeral(span(bytes, x.at, x.len)) {
            Some(value) => AtomKind::Numeral(value),
            None => AtomKind::LargeNumeral,
        },
        Terminal::Decimal => AtomKind::Decimal,
        Terminal::Hash => AtomKind::Hash,
        Terminal::StringLiteral => AtomKind::StringLiteral(inner(alloc, bytes, x)?),
        Terminal::Keyword => AtomKind::Keyword(whole(alloc, bytes, x)?),
        Terminal::Quoted => AtomKind::Symbol(inner(alloc, bytes, x)?),
        Terminal::Symbol
        | Terminal::Open
        | Terminal::Close
        | Terminal::Bad
        | Terminal::Unfinished => AtomKind::Symbol(whole(alloc, bytes, x)?),
    };
    Ok(Atom { at: x.at, kind })
}

/// The text of a token.
fn whole(alloc: Global, bytes: &[u8], x: Lexeme) -> Result<Items<u8>, AllocError>
    ensures { IfOk result (λ text. text ≡ whole bytes.now x) }
{
    Items::from_slice(alloc, span(bytes, x.at, x.len))
}

/// The text of a token between its first and its last byte.
fn inner(alloc: Global, bytes: &[u8], x: Lexeme) -> Result<Items<u8>, AllocError>
    ensures { IfOk result (λ text. text ≡ inner bytes.now x) }
{
    let text = span(bytes, x.at.saturating_add(1), x.len.saturating_sub(2));
    Items::from_slice(alloc, text)
}

/// This many bytes of a text from an offset on.
fn span(bytes: &[u8], at: u64, len: u64) -> &[u8]
    ensures { result.now ≡ span bytes.now at len }
{
    let from = bytes.get(at as usize..).unwrap_or(&[]);
    from.get(..len as usize).unwrap_or(from)
}
