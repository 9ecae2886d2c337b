// The words that begin lines.

ghost use Rattle.clause_text.specs.Words.{frequent_words, one_of, other_words, word_of, word_text};
ghost use Rattle.std.specs.Prelude.{◌≡◌, None};

/// The word of a line.
#[derive(Clone, Copy, PartialEq, Eq)]
pub enum LineWord {
    Open,
    Apply,
    Read,
    Instance,
    Geq,
    Eq,
    Pred,
    Split,
    Sum,
    Pair,
    PredPair,
    Divide,
    Resolve,
    Delete,
}

/// The word that the bytes are; none where they are none.
pub(crate) fn line_word(bytes: &[u8]) -> Option<LineWord>
    ensures { result ≡ word_of bytes.now }
{
    if bytes == b"resolve".as_slice() {
        return Some(LineWord::Resolve);
    }
    if bytes == b"sum".as_slice() {
        return Some(LineWord::Sum);
    }
    if bytes == b"delete".as_slice() {
        return Some(LineWord::Delete);
    }
    if bytes == b"geq".as_slice() {
        return Some(LineWord::Geq);
    }
    if bytes == b"eq".as_slice() {
        return Some(LineWord::Eq);
    }
    if bytes == b"open".as_slice() {
        return Some(LineWord::Open);
    }
    if bytes == b"read".as_slice() {
        return Some(LineWord::Read);
    }
    other_word(bytes)
}

/// A word that few lines begin with.
fn other_word(bytes: &[u8]) -> Option<LineWord>
    ensures { result ≡ one_of other_words bytes.now None }
{
    if bytes == b"instance".as_slice() {
        return Some(LineWord::Instance);
    }
    if bytes == b"split".as_slice() {
        return Some(LineWord::Split);
    }
    if bytes == b"apply".as_slice() {
        return Some(LineWord::Apply);
    }
    if bytes == b"pair".as_slice() {
        return Some(LineWord::Pair);
    }
    if bytes == b"divide".as_slice() {
        return Some(LineWord::Divide);
    }
    if bytes == b"pred".as_slice() {
        return Some(LineWord::Pred);
    }
    if bytes == b"pred-pair".as_slice() {
        return Some(LineWord::PredPair);
    }
    None
}

/// How a word is written.
pub(crate) fn word_text(word: LineWord) -> &'static [u8]
    ensures { result.now ≡ word_text word }
{
    match word {
        LineWord::Open => b"open".as_slice(),
        LineWord::Apply => b"apply".as_slice(),
        LineWord::Read => b"read".as_slice(),
        LineWord::Instance => b"instance".as_slice(),
        LineWord::Geq => b"geq".as_slice(),
        LineWord::Eq => b"eq".as_slice(),
        LineWord::Pred => b"pred".as_slice(),
        LineWord::Split => b"split".as_slice(),
        LineWord::Sum => b"sum".as_slice(),
        LineWord::Pair => b"pair".as_slice(),
        LineWord::PredPair => b"pred-pair".as_slice(),
        LineWord::Divide => b"divide".as_slice(),
        LineWord::Resolve => b"resolve".as_slice(),
        LineWord::Delete => b"delete".as_slice(),
    }
}
