// The forms of terms that are told by the symbol at the head of a list.

ghost use Rattle.smt_typing.specs.Reading.{head_named};
ghost use Rattle.std.specs.Prelude.{◌≡◌};

/// What a symbol at the head of a list begins.
#[derive(Clone, Copy, Debug, PartialEq, Eq)]
pub enum Head {
    /// `let`
    Let,
    /// `forall`
    Forall,
    /// `exists`
    Exists,
    /// `!`
    Note,
    /// A reserved word whose form is no term here.
    Other,
    /// Any other symbol, used at its arguments.
    Use,
}

/// What a symbol at the head of a list begins.
pub fn head_named(text: &[u8]) -> Head
    ensures { result ≡ head_named text.now }
{
    if text == b"let".as_slice() {
        Head::Let
    } else if text == b"forall".as_slice() {
        Head::Forall
    } else if text == b"exists".as_slice() {
        Head::Exists
    } else if text == b"!".as_slice() {
        Head::Note
    } else if text == b"_".as_slice() || text == b"as".as_slice() || text == b"match".as_slice() {
        Head::Other
    } else {
        Head::Use
    }
}
