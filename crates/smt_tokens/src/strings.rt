// Where strings, and symbols between bars, end.

ghost use Rattle.smt_tokens.specs.Bytes.{is_bar_byte};
ghost use Rattle.smt_tokens.specs.Lexemes.{bars_ending_of, string_ending_of};
ghost use Rattle.std.specs.List.{prefix_len};
ghost use Rattle.std.specs.Prelude.{◌≡◌, ◌≤◌, length};
ghost use Rattle.smt_tokens.specs.Endings.{ClosesWithin};

use crate::bytes::{is_bar_byte, is_string_byte};

/// How a string or a symbol between bars ends, after its first byte.
#[derive(Clone, Copy, Debug, PartialEq, Eq)]
pub enum Ending {
    /// With this many bytes, the last one its quote or bar.
    Closed(usize),
    /// It has a byte that it may not have.
    Forbidden,
    /// The text ends first.
    Missing,
}

/// How the string ends that begins at the `"` before this text.
pub fn string_ending(text: &[u8]) -> Ending
    ensures exact { result ≡ string_ending_of text.now }
    ensures within { ClosesWithin result (length text.now) }
{
    let mut quote = false;
    for (i, byte) in text.iter().enumerate() {
        if *byte == b'"' {
            quote = !quote;
        } else if quote {
            return Ending::Closed(i);
        } else if !is_string_byte(*byte) {
            return Ending::Forbidden;
        }
    }
    if quote {
        Ending::Closed(text.len())
    } else {
        Ending::Missing
    }
}

/// How the symbol ends that begins at the `|` before this text.
pub fn bars_ending(text: &[u8]) -> Ending
    ensures exact { result ≡ bars_ending_of text.now }
    ensures within { ClosesWithin result (length text.now) }
{
    let len = bar_bytes(text);
    match text.split_at(len).1.split_first() {
        None => Ending::Missing,
        Some((byte, _)) => {
            if *byte == b'|' {
                Ending::Closed(1 + len)
            } else {
                Ending::Forbidden
            }
        }
    }
}

/// How many bytes at the front may stand between bars.
#[tactic(auto, using(crate::proofs::Scan::runs))]
fn bar_bytes(text: &[u8]) -> usize
    ensures exact { result ≡ prefix_len is_bar_byte text.now }
    ensures within { result ≤ length text.now }
{
    text.iter().take_while(|byte| is_bar_byte(**byte)).count()
}
