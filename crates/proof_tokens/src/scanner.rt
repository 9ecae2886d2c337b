// The token that a text begins with: a word is as long as its letters and digits go.

ghost use Rattle.proof_tokens.specs.Scanning.{first_piece_of, is_merge, is_word_byte, joins, word_len};
ghost use Rattle.std.specs.List.{prefix_len};
ghost use Rattle.std.specs.Prelude.{◌≡◌, ◌≤◌, ◌<◌, ◌+◌, length, slice_index, IfSome};

use crate::tokens::Token;
use crate::words::{are_digits, byte_at, sign, word};

/// A token at the front of a text, and its length in bytes.
#[derive(Clone, Copy)]
pub struct Piece {
    pub token: Token,
    pub len: usize,
}

/// The token that the text begins with; none where it has no byte.
pub fn first_piece(text: &[u8]) -> Option<Piece>
    ensures exact { result ≡ first_piece_of text.now }
    ensures within { IfSome result (λ piece. (1 ≤ piece.len) × (piece.len ≤ length text.now)) }
{
    let Some((first, behind)) = text.split_first() else {
        return None;
    };
    let first = *first;
    if is_word_byte(first) {
        let len = word_len(text);
        let token = word(text.split_at(len).0);
        return Some(Piece { token, len });
    }
    if first == b'>' && byte_at(behind, 0) == b'=' {
        let token = Token::AtLeast;
        return Some(Piece { token, len: 2 });
    }
    let token = sign(first);
    Some(Piece { token, len: 1 })
}

/// How long the word at the front of a text is.
#[tactic(auto, using(crate::proofs::Runs::runs, crate::proofs::Runs::joined))]
fn word_len(text: &[u8]) -> usize
    ensures exact { result ≡ word_len text.now }
    ensures within { result ≤ length text.now }
{
    let len = run_len(text);
    let (word, rest) = text.split_at(len);
    if !joins(word, rest) {
        return len;
    }
    let more = rest.get(1..).unwrap_or(&[]);
    len + 1 + run_len(more)
}

/// Whether the byte after a word belongs to it.
fn joins(word: &[u8], rest: &[u8]) -> bool
    ensures { result ≡ joins word.now rest.now }
{
    let next = byte_at(rest, 0);
    if next == b'-' {
        return word == b"princess".as_slice();
    }
    next == b',' && byte_at(rest, 1).is_ascii_digit() && is_merge(word)
}

/// `m` and digits.
fn is_merge(word: &[u8]) -> bool
    ensures { result ≡ is_merge word.now }
{
    let Some((first, digits)) = word.split_first() else {
        return false;
    };
    *first == b'm' && !digits.is_empty() && are_digits(digits)
}

/// How many bytes at the front are letters and digits.
#[tactic(auto, using(crate::proofs::Runs::runs))]
fn run_len(text: &[u8]) -> usize
    ensures exact { result ≡ prefix_len is_word_byte text.now }
    ensures within { result ≤ length text.now }
{
    text.iter().take_while(|byte| is_word_byte(**byte)).count()
}

/// A letter or a digit.
pub(crate) fn is_word_byte(byte: u8) -> bool
    ensures { result ≡ is_word_byte byte }
{
    byte.is_ascii_alphabetic() || byte.is_ascii_digit()
}
