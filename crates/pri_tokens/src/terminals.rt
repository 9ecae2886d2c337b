// What a token is: its place, its kind, and what it says to the grammar.

ghost use Rattle.pri_tokens.specs.Terminals.{kind_of};
ghost use Rattle.std.specs.Prelude.{◌≡◌};

/// A token of a file: the offset of its first byte, its length in bytes, and its kind.
#[derive(Clone, Copy, Debug, PartialEq, Eq)]
pub struct Token {
    pub at: u64,
    pub len: u64,
    pub kind: TokenKind,
}

/// The kinds of tokens.
#[derive(Clone, Copy, Debug, PartialEq, Eq)]
pub enum TokenKind {
    /// A letter or `_`, then letters, digits and `_`; none of the words.
    Identifier,
    /// One or more decimal digits.
    Number,
    /// `int`, `nat`, `true` or `false`.
    Word,
    /// A `\` and the name of a command.
    Command,
    /// A sign of one to three bytes.
    Sign,
    /// A byte that begins none of the others, a `\` with other letters after it, or a comment without end.
    Bad,
}

/// A token with what it says to the grammar: the offset of its first byte, its length in bytes, and its terminal.
#[derive(Clone, Copy, Debug, PartialEq, Eq)]
pub struct Lexeme {
    pub at: u64,
    pub len: u64,
    pub terminal: Terminal,
}

/// The terminals of the grammar.
#[derive(Clone, Copy, Debug, PartialEq, Eq)]
pub enum Terminal {
    Identifier,
    Number,
    /// `int`
    Int,
    /// `nat`
    Nat,
    /// `true`
    True,
    /// `false`
    False,
    /// `\universalConstants`
    UniversalConstants,
    /// `\existentialConstants`
    ExistentialConstants,
    /// `\functions`
    Functions,
    /// `\predicates`
    Predicates,
    /// `\problem`
    Problem,
    /// `\interpolant`
    Interpolant,
    /// `\forall`
    Forall,
    /// `\exists`
    Exists,
    /// `\part`
    Part,
    /// `\if`
    If,
    /// `\then`
    Then,
    /// `\else`
    Else,
    /// `\abs`
    Abs,
    /// `\min`
    Min,
    /// `\max`
    Max,
    /// `{`
    OpenBrace,
    /// `}`
    CloseBrace,
    /// `(`
    OpenParenthesis,
    /// `)`
    CloseParenthesis,
    /// `[`
    OpenBracket,
    /// `]`
    CloseBracket,
    /// `;`
    Semicolon,
    /// `,`
    Comma,
    /// `!`
    Not,
    /// `&`
    And,
    /// `|`
    Or,
    /// `->`
    Implies,
    /// `<->`
    Iff,
    /// `=`
    Equal,
    /// `!=`
    Unequal,
    /// `<`
    Less,
    /// `<=`
    AtMost,
    /// `>`
    Greater,
    /// `>=`
    AtLeast,
    /// `+`
    Plus,
    /// `-`
    Minus,
    /// `*`
    Star,
    /// No terminal of the grammar.
    Bad,
}

/// The kind of the tokens with this terminal.
pub fn kind_of(terminal: Terminal) -> TokenKind
    ensures { result ≡ kind_of terminal }
{
    match terminal {
        Terminal::Identifier => TokenKind::Identifier,
        Terminal::Number => TokenKind::Number,
        Terminal::Int | Terminal::Nat | Terminal::True | Terminal::False => TokenKind::Word,
        Terminal::UniversalConstants
        | Terminal::ExistentialConstants
        | Terminal::Functions
        | Terminal::Predicates
        | Terminal::Problem
        | Terminal::Interpolant
        | Terminal::Forall
        | Terminal::Exists
        | Terminal::Part
        | Terminal::If
        | Terminal::Then
        | Terminal::Else
        | Terminal::Abs
        | Terminal::Min
        | Terminal::Max => TokenKind::Command,
        Terminal::OpenBrace
        | Terminal::CloseBrace
        | Terminal::OpenParenthesis
        | Terminal::CloseParenthesis
        | Terminal::OpenBracket
        | Terminal::CloseBracket
        | Terminal::Semicolon
        | Terminal::Comma
        | Terminal::Not
        | Terminal::And
        | Terminal::Or
        | Terminal::Implies
        | Terminal::Iff
        | Terminal::Equal
        | Terminal::Unequal
        | Terminal::Less
        | Terminal::AtMost
        | Terminal::Greater
        | Terminal::AtLeast
        | Terminal::Plus
        | Terminal::Minus
        | Terminal::Star => TokenKind::Sign,
        Terminal::Bad => TokenKind::Bad,
    }
}
