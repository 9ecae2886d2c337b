// What a script is read as before its commands are told apart (SMT-LIB 2.6, sections 3.1 and 3.2). Contracts see an
// S-expression as the tree of `specs/Expressions.antt`, on which all that goes by recursion is defined.

use sqlite_items::Items;

/// An S-expression: an atom, or a list with the offset of its `(`.
#[derive(Drop)]
pub enum Sexp {
    Atom(Atom),
    List(u64, Items<Sexp>),
}

/// A token that is no parenthesis, with the offset of its first byte.
#[derive(Drop)]
pub struct Atom {
    pub at: u64,
    pub kind: AtomKind,
}

/// What an atom is. The texts of decimals and of hexadecimal and binary literals are not kept: no command and no term asks for them.
#[derive(Drop)]
pub enum AtomKind {
    /// A numeral of 0 to 2^127 − 1.
    Numeral(i128),
    /// A numeral above 2^127 − 1.
    LargeNumeral,
    /// A numeral, a dot and digits.
    Decimal,
    /// `#x` or `#b` with digits.
    Hash,
    /// A string, by what stands between its quotes, as it is written: a quote in it is written twice.
    StringLiteral(Items<u8>),
    /// A `:` with letters, digits and signs after it, by its whole text.
    Keyword(Items<u8>),
    /// A symbol, by its name: what stands between the bars of a symbol in bars, else the text itself.
    Symbol(Items<u8>),
}
