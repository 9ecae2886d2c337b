// Where the tokens of a file begin and end: the longest token is taken, and white space and comments part them.

ghost use Rattle.pri_tokens.specs.Bytes.{text_of};
ghost use Rattle.pri_tokens.specs.Lexemes.{behind_close, is_name_byte, first_piece_of, is_not_line_feed, is_white, lexemes_of, slash_piece, starts_name, tokens_of};
ghost use Rattle.std.specs.Char.{is_ascii_alphabetic, is_ascii_digit};
ghost use Rattle.std.specs.List.{prefix_len};
ghost use Rattle.std.specs.Prelude.{◌≡◌, ◌≤◌, ◌<◌, ◌+◌, length, slice_index, IfOk, IfSome, MatchOption, [], false};

use crate::spellings::{command, longest_sign, word};
use crate::terminals::{Lexeme, Terminal, Token, kind_of};
use linear_term::Memory;
use sqlite_items::Items;
use std::alloc::Global;

/// What begins at a place of a file, and its length in bytes: a token with this terminal, or white space or a comment.
#[derive(Clone, Copy, Debug, PartialEq, Eq)]
struct Piece {
    len: usize,
    terminal: Option<Terminal>,
}

/// The bytes of a token.
pub fn spelling<'a>(bytes: &'a [u8], lexeme: &Lexeme) -> &'a [u8]
    ensures { result.now ≡ text_of bytes.now lexeme.now }
{
    let from = bytes.get(lexeme.at as usize..).unwrap_or(&[]);
    from.get(..lexeme.len as usize).unwrap_or(from)
}

/// The tokens of a file, in order.
pub fn tokens(alloc: Global, bytes: &[u8]) -> Result<Items<Token>, Memory>
    ensures exact { IfOk result (λ found. found ≡ tokens_of bytes.now) }
{
    let scanned = lexemes(alloc, bytes)?;
    let mut found = Items::new(alloc);
    for lexeme in scanned.as_slice() {
        found
            .push(Token {
                at: lexeme.at,
                len: lexeme.len,
                kind: kind_of(lexeme.terminal),
            })
            .map_err(|_| Memory)?;
    }
    Ok(found)
}

/// The tokens of a file in order, each with its terminal.
pub fn lexemes(alloc: Global, bytes: &[u8]) -> Result<Items<Lexeme>, Memory>
    ensures exact { IfOk result (λ found. found ≡ lexemes_of bytes.now) }
{
    let mut found = Items::new(alloc);
    let mut at: usize = 0;
    let mut rest = bytes;
    while let Some(piece) = first_piece(rest) {
        if let Some(terminal) = piece.terminal {
            found
                .push(Lexeme {
                    at: at as u64,
                    len: piece.len as u64,
                    terminal,
                })
                .map_err(|_| Memory)?;
        }
        at += piece.len;
        rest = rest.split_at(piece.len).1;
    }
    Ok(found)
}

/// What begins at the first byte of this text; none where there is no byte.
fn first_piece(text: &[u8]) -> Option<Piece>
    ensures exact { result ≡ first_piece_of text.now }
    ensures within { IfSome result (λ piece. (1 ≤ piece.len) × (piece.len ≤ length text.now)) }
{
    let Some((first, behind)) = text.split_first() else {
        return None;
    };
    let first = *first;
    if is_white(first) {
        return Some(Piece {
            len: 1,
            terminal: None,
        });
    }
    if starts_name(first) {
        let len = 1 + name_len(behind);
        return Some(Piece {
            len,
            terminal: Some(word(text.split_at(len).0)),
        });
    }
    if first.is_ascii_digit() {
        return Some(Piece {
            len: 1 + digits_len(behind),
            terminal: Some(Terminal::Number),
        });
    }
    if first == b'\\' {
        let len = 1 + letters_len(behind);
        return Some(Piece {
            len,
            terminal: Some(command(text.split_at(len).0)),
        });
    }
    if first == b'/' {
        return Some(slash(behind));
    }
    let sign = longest_sign(first, byte_at(behind, 0), byte_at(behind, 1));
    Some(Piece {
        len: sign.len,
        terminal: Some(sign.terminal),
    })
}

/// What begins at a `/` with this text after it: a comment, a comment without end, or a bad byte.
fn slash(behind: &[u8]) -> Piece
    ensures exact { result ≡ slash_piece behind.now }
    ensures within { (1 ≤ result.len) × (result.len ≤ 1 + length behind.now) }
{
    let next = byte_at(behind, 0);
    if next == b'/' {
        return Piece {
            len: 1 + line_len(behind),
            terminal: None,
        };
    }
    if next != b'*' {
        return Piece {
            len: 1,
            terminal: Some(Terminal::Bad),
        };
    }
    let Some(len) = comment_len(behind.split_at(1).1) else {
        let terminal = Some(Terminal::Bad);
        return Piece {
            len: 1 + behind.len(),
            terminal,
        };
    };
    Piece {
        len: 2 + len,
        terminal: None,
    }
}

/// The length of a text up to and with its first `*/`; none where it has none.
fn comment_len(text: &[u8]) -> Option<usize>
    ensures exact { result ≡ behind_close false text.now }
    ensures within { IfSome result (λ len. len ≤ length text.now) }
{
    let mut star = false;
    for (i, byte) in text.iter().enumerate() {
        if star && *byte == b'/' {
            return Some(i + 1);
        }
        star = *byte == b'*';
    }
    None
}

/// The byte at this place, 0 past the end.
fn byte_at(text: &[u8], at: usize) -> u8
    ensures { result ≡ slice_index text.now at }
{
    text.get(at).copied().unwrap_or(0)
}

/// How many bytes at the front are letters, digits and `_`.
#[tactic(auto, using(crate::proofs::Scan::runs))]
fn name_len(text: &[u8]) -> usize
    ensures exact { result ≡ prefix_len is_name_byte text.now }
    ensures within { result ≤ length text.now }
{
    text.iter().take_while(|byte| is_name_byte(**byte)).count()
}

/// How many bytes at the front are digits.
#[tactic(auto, using(crate::proofs::Scan::runs))]
fn digits_len(text: &[u8]) -> usize
    ensures exact { result ≡ prefix_len is_ascii_digit text.now }
    ensures within { result ≤ length text.now }
{
    text.iter().take_while(|byte| byte.is_ascii_digit()).count()
}

/// How many bytes at the front are letters.
#[tactic(auto, using(crate::proofs::Scan::runs))]
fn letters_len(text: &[u8]) -> usize
    ensures exact { result ≡ prefix_len is_ascii_alphabetic text.now }
    ensures within { result ≤ length text.now }
{
    text.iter()
        .take_while(|byte| byte.is_ascii_alphabetic())
        .count()
}

/// How many bytes stand before the first line feed.
#[tactic(auto, using(crate::proofs::Scan::runs))]
fn line_len(text: &[u8]) -> usize
    ensures exact { result ≡ prefix_len is_not_line_feed text.now }
    ensures within { result ≤ length text.now }
{
    text.iter().take_while(|byte| **byte != b'\n').count()
}

/// Space, tab, line feed or carriage return.
fn is_white(byte: u8) -> bool
    ensures { result ≡ is_white byte }
{
    byte == b' ' || byte == b'\t' || byte == b'\n' || byte == b'\r'
}

/// A letter or `_`.
fn starts_name(byte: u8) -> bool
    ensures { result ≡ starts_name byte }
{
    byte.is_ascii_alphabetic() || byte == b'_'
}

/// A letter, a digit or `_`.
fn is_name_byte(byte: u8) -> bool
    ensures { result ≡ is_name_byte byte }
{
    starts_name(byte) || byte.is_ascii_digit()
}
