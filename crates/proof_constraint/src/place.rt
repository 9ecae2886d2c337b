// Where the reader of a line `gives` stands.

/// The word that came last.
#[derive(Clone, Copy)]
pub enum Last {
    /// The word before a literal, or before its term.
    Start,
    /// The name that ends a part of a term.
    Sum,
    /// The sign before a part that is not the first; whether it is `-`.
    Sign(bool),
    /// A number, and whether a `-` stands before it.
    Number(bool, u128),
    /// `=`, or `>=` for a bound.
    Relation(bool),
    /// The last word of a literal, or `true`.
    Clause,
    /// The word `false`.
    False,
}

/// Where the reader stands.
#[derive(Clone, Copy)]
pub enum Place {
    /// After a word.
    Behind(Last),
    /// After a word and a blank.
    Blank(Last),
    /// After the `-` that begins a term.
    Minus,
    /// After a coefficient and its `*`.
    Times(bool, u128),
}

/// What a token does: it cannot stand there, leads on, or ends the line.
#[derive(Clone, Copy)]
pub enum Progress {
    Bad,
    On(Place),
    Done,
}
