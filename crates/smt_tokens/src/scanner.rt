// Where the tokens of a script begin and end: the longest token is taken, and white space and comments part them.

ghost use Rattle.smt_tokens.specs.Bytes.{is_binary_digit, is_in_line, is_symbol_byte};
ghost use Rattle.smt_tokens.specs.Lexemes.{bad, enclosed, first_piece_of, fraction_len, hash_piece, lexemes_of, marked, more_digits, number_before};
ghost use Rattle.smt_tokens.specs.Tokens.{begins};
ghost use Rattle.smt_tokens.specs.Endings.{ClosesWithin};
ghost use Rattle.std.specs.Char.{is_ascii_digit, is_ascii_hexdigit};
ghost use Rattle.std.specs.List.{prefix_len};
ghost use Rattle.std.specs.Prelude.{◌≡◌, ◌≤◌, ◌<◌, ◌+◌, length, slice_index, IfOk, IfSome, ◌^◌};

use crate::bytes::{is_binary_digit, is_in_line, is_symbol_byte, is_white};
use crate::strings::{Ending, bars_ending, string_ending};
use crate::terminals::{Lexeme, Terminal};
use sqlite_items::Items;
use std::alloc::{AllocError, Global};

/// What begins at a place of a text, and its length in bytes: a token with this terminal, or white space or a comment.
#[derive(Clone, Copy, Debug, PartialEq, Eq)]
struct Piece {
    len: usize,
    terminal: Option<Terminal>,
}

/// The tokens of a text, in order; after a byte that begins no token nothing is cut.
pub fn lexemes(alloc: Global, bytes: &[u8]) -> Result<Items<Lexeme>, AllocError>
    ensures exact { IfOk result (λ found. found ≡ lexemes_of bytes.now) }
{
    let mut found = Items::new(alloc);
    let mut at: usize = 0;
    let mut rest = bytes;
    while let Some(piece) = first_piece(rest) {
        if let Some(terminal) = piece.terminal {
            found.push(Lexeme {
                at: at as u64,
                len: piece.len as u64,
                terminal,
            })?;
        }
        at += piece.len;
        rest = rest.split_at(piece.len).1;
    }
    Ok(found)
}

/// What begins at the first byte of this text; none where there is no byte.
fn first_piece(text: &[u8]) -> Option<Piece>
    ensures exact { result ≡ first_piece_of text.now }
    ensures within { IfSome result (λ piece. (1 ≤ piece.len) × (piece.len ≤ length text.now)) }
{
    let Some((first, behind)) = text.split_first() else {
        return None;
    };
    let first = *first;
    if is_white(first) {
        return Some(Piece {
            len: 1,
            terminal: None,
        });
    }
    if first == b';' {
        return Some(Piece {
            len: 1 + line_len(behind),
            terminal: None,
        });
    }
    if first == b'(' {
        return Some(named(1, Terminal::Open));
    }
    if first == b')' {
        return Some(named(1, Terminal::Close));
    }
    if first.is_ascii_digit() {
        let more = more_digits(first, behind);
        return Some(number(1 + more, behind.split_at(more).1, behind));
    }
    if is_symbol_byte(first) {
        return Some(named(1 + symbol_len(behind), Terminal::Symbol));
    }
    if first == b':' {
        return Some(marked(1, symbol_len(behind), Terminal::Keyword, behind));
    }
    if first == b'#' {
        return Some(hash(behind));
    }
    if first == b'"' {
        return Some(enclosed(Terminal::StringLiteral, behind, string_ending(behind)));
    }
    if first == b'|' {
        return Some(enclosed(Terminal::Quoted, behind, bars_ending(behind)));
    }
    Some(bad(behind))
}

/// A token of this length.
fn named(len: usize, terminal: Terminal) -> Piece
    ensures { result ≡ record { len = len; terminal = Some terminal } }
{
    Piece {
        len,
        terminal: Some(terminal),
    }
}

/// No token begins at the byte before this text.
fn bad(text: &[u8]) -> Piece
    requires { length text.now < 2 ^ 63 }
    ensures { result ≡ bad text.now }
{
    named(1 + text.len(), Terminal::Bad)
}

/// The token of some bytes and a run of this many more, at the byte before this text; none where the run is empty.
fn marked(front: usize, run: usize, terminal: Terminal, text: &[u8]) -> Piece
    requires { (1 ≤ front) × (front + run ≤ 1 + length text.now) × (length text.now < 2 ^ 63) }
    ensures exact { result ≡ marked front run terminal text.now }
    ensures within { (1 ≤ result.len) × (result.len ≤ 1 + length text.now) }
{
    if run == 0 {
        return bad(text);
    }
    named(front + run, terminal)
}

/// How many digits of a numeral stand after its first one: none after a 0.
fn more_digits(first: u8, behind: &[u8]) -> usize
    ensures exact { result ≡ more_digits first behind.now }
    ensures within { result ≤ length behind.now }
{
    if first == b'0' { 0 } else { digits_len(behind) }
}

/// The length of a dot with digits after it, 0 where there is none.
fn fraction(text: &[u8]) -> usize
    ensures exact { result ≡ fraction_len text.now }
    ensures within { result ≤ length text.now }
{
    let Some((first, behind)) = text.split_first() else {
        return 0;
    };
    if *first != b'.' {
        return 0;
    }
    let digits = digits_len(behind);
    if digits == 0 { 0 } else { 1 + digits }
}

/// Whether a text begins with a byte of a symbol.
fn begins_symbol(text: &[u8]) -> bool
    ensures { result ≡ begins is_symbol_byte text.now }
{
    let Some((first, _)) = text.split_first() else {
        return false;
    };
    is_symbol_byte(*first)
}

/// What begins at the byte before a text with this many digits of a numeral, after which this text stands: a numeral or a decimal,
/// and no token where a byte of a symbol stands after it.
fn number(digits: usize, behind: &[u8], text: &[u8]) -> Piece
    requires { (1 ≤ digits) × (digits + length behind.now ≡ 1 + length text.now) × (length text.now < 2 ^ 63) }
    ensures exact { result ≡ number_before text.now digits behind.now }
    ensures within { (1 ≤ result.len) × (result.len ≤ 1 + length text.now) }
{
    let fraction = fraction(behind);
    if begins_symbol(behind.split_at(fraction).1) {
        return bad(text);
    }
    if fraction == 0 {
        return named(digits, Terminal::Numeral);
    }
    named(digits + fraction, Terminal::Decimal)
}

/// What begins at a `#` with this text after it.
fn hash(behind: &[u8]) -> Piece
    requires { length behind.now < 2 ^ 63 }
    ensures exact { result ≡ hash_piece behind.now }
    ensures within { (1 ≤ result.len) × (result.len ≤ 1 + length behind.now) }
{
    let Some((base, digits)) = behind.split_first() else {
        return bad(behind);
    };
    if *base == b'x' {
        return marked(2, hexadecimal_len(digits), Terminal::Hash, behind);
    }
    if *base == b'b' {
        return marked(2, binary_len(digits), Terminal::Hash, behind);
    }
    bad(behind)
}

/// A string, or a symbol between bars, that begins at the byte before this text and ends so.
fn enclosed(terminal: Terminal, behind: &[u8], ending: Ending) -> Piece
    requires { ClosesWithin ending (length behind.now) × (length behind.now < 2 ^ 63) }
    ensures exact { result ≡ enclosed terminal behind.now ending }
    ensures within { (1 ≤ result.len) × (result.len ≤ 1 + length behind.now) }
{
    match ending {
        Ending::Closed(len) => named(1 + len, terminal),
        Ending::Forbidden => bad(behind),
        Ending::Missing => named(1 + behind.len(), Terminal::Unfinished),
    }
}

/// How many bytes at the front are letters, digits and signs of symbols.
#[tactic(auto, using(crate::proofs::Scan::runs))]
fn symbol_len(text: &[u8]) -> usize
    ensures exact { result ≡ prefix_len is_symbol_byte text.now }
    ensures within { result ≤ length text.now }
{
    text.iter()
        .take_while(|byte| is_symbol_byte(**byte))
        .count()
}

/// How many bytes at the front are digits.
#[tactic(auto, using(crate::proofs::Scan::runs))]
fn digits_len(text: &[u8]) -> usize
    ensures exact { result ≡ prefix_len is_ascii_digit text.now }
    ensures within { result ≤ length text.now }
{
    text.iter().take_while(|byte| byte.is_ascii_digit()).count()
}

/// How many bytes at the front are hexadecimal digits.
#[tactic(auto, using(crate::proofs::Scan::runs))]
fn hexadecimal_len(text: &[u8]) -> usize
    ensures exact { result ≡ prefix_len is_ascii_hexdigit text.now }
    ensures within { result ≤ length text.now }
{
    text.iter()
        .take_while(|byte| byte.is_ascii_hexdigit())
        .count()
}

/// How many bytes at the front are binary digits.
#[tactic(auto, using(crate::proofs::Scan::runs))]
fn binary_len(text: &[u8]) -> usize
    ensures exact { result ≡ prefix_len is_binary_digit text.now }
    ensures within { result ≤ length text.now }
{
    text.iter()
        .take_while(|byte| is_binary_digit(**byte))
        .count()
}

/// How many bytes stand before the end of the line.
#[tactic(auto, using(crate::proofs::Scan::runs))]
fn line_len(text: &[u8]) -> usize
    ensures exact { result ≡ prefix_len is_in_line text.now }
    ensures within { result ≤ length text.now }
{
    text.iter().take_while(|byte| is_in_line(**byte)).count()
}
