// Which terminal a word, a command or a sign is, by its spelling.

ghost use Rattle.pri_tokens.specs.Spellings.{command_of, sign_of, single_sign_of, word_of};
ghost use Rattle.std.specs.Prelude.{◌≡◌, ◌≤◌, ◌<◌};

use crate::terminals::Terminal;

/// A sign, and its length in bytes.
#[derive(Clone, Copy, Debug, PartialEq, Eq)]
pub struct Sign {
    pub len: usize,
    pub terminal: Terminal,
}

/// The terminal of a letter or `_` with letters, digits and `_` after it.
pub fn word(text: &[u8]) -> Terminal
    ensures { result ≡ word_of text.now }
{
    if text == b"int".as_slice() {
        return Terminal::Int;
    }
    if text == b"nat".as_slice() {
        return Terminal::Nat;
    }
    if text == b"true".as_slice() {
        return Terminal::True;
    }
    if text == b"false".as_slice() {
        return Terminal::False;
    }
    Terminal::Identifier
}

/// The terminal of a `\` with letters after it.
pub fn command(text: &[u8]) -> Terminal
    ensures { result ≡ command_of text.now }
{
    if text == b"\\universalConstants".as_slice() {
        return Terminal::UniversalConstants;
    }
    if text == b"\\existentialConstants".as_slice() {
        return Terminal::ExistentialConstants;
    }
    if text == b"\\functions".as_slice() {
        return Terminal::Functions;
    }
    if text == b"\\predicates".as_slice() {
        return Terminal::Predicates;
    }
    if text == b"\\problem".as_slice() {
        return Terminal::Problem;
    }
    if text == b"\\interpolant".as_slice() {
        return Terminal::Interpolant;
    }
    if text == b"\\forall".as_slice() {
        return Terminal::Forall;
    }
    if text == b"\\exists".as_slice() {
        return Terminal::Exists;
    }
    if text == b"\\part".as_slice() {
        return Terminal::Part;
    }
    if text == b"\\if".as_slice() {
        return Terminal::If;
    }
    if text == b"\\then".as_slice() {
        return Terminal::Then;
    }
    if text == b"\\else".as_slice() {
        return Terminal::Else;
    }
    if text == b"\\abs".as_slice() {
        return Terminal::Abs;
    }
    if text == b"\\min".as_slice() {
        return Terminal::Min;
    }
    if text == b"\\max".as_slice() {
        return Terminal::Max;
    }
    Terminal::Bad
}

/// The longest sign that begins with these three bytes, 0 standing for a byte past the end of the file; one bad byte
/// where none does.
pub fn longest_sign(first: u8, second: u8, third: u8) -> Sign
    ensures exact { result ≡ sign_of first second third }
    ensures within { (1 ≤ result.len) × (2 ≤ result.len → 0 < second) × (3 ≤ result.len → 0 < third) × (result.len ≤ 3) }
{
    if first == b'<' && second == b'-' && third == b'>' {
        return Sign {
            len: 3,
            terminal: Terminal::Iff,
        };
    }
    if first == b'-' && second == b'>' {
        return Sign {
            len: 2,
            terminal: Terminal::Implies,
        };
    }
    if first == b'!' && second == b'=' {
        return Sign {
            len: 2,
            terminal: Terminal::Unequal,
        };
    }
    if first == b'<' && second == b'=' {
        return Sign {
            len: 2,
            terminal: Terminal::AtMost,
        };
    }
    if first == b'>' && second == b'=' {
        return Sign {
            len: 2,
            terminal: Terminal::AtLeast,
        };
    }
    Sign {
        len: 1,
        terminal: single_sign(first),
    }
}

/// The sign of one byte, or Bad.
fn single_sign(byte: u8) -> Terminal
    ensures { result ≡ single_sign_of byte }
{
    match byte {
        b'{' => Terminal::OpenBrace,
        b'}' => Terminal::CloseBrace,
        b'(' => Terminal::OpenParenthesis,
        b')' => Terminal::CloseParenthesis,
        b'[' => Terminal::OpenBracket,
        b']' => Terminal::CloseBracket,
        b';' => Terminal::Semicolon,
        b',' => Terminal::Comma,
        b'!' => Terminal::Not,
        b'&' => Terminal::And,
        b'|' => Terminal::Or,
        b'=' => Terminal::Equal,
        b'<' => Terminal::Less,
        b'>' => Terminal::Greater,
        b'+' => Terminal::Plus,
        b'-' => Terminal::Minus,
        b'*' => Terminal::Star,
        _ => Terminal::Bad,
    }
}
