// The tokens of a proof's text.

ghost use Rattle.proof_tokens.specs.Spellings.{spelling, token_of};
ghost use Rattle.std.specs.Prelude.{◌≡◌, ◌↔◌, IsTrue};

use base_budget::Entry;

/// A token.
#[derive(Clone, Copy)]
pub enum Token {
    /// `princess-proof`, which begins a proof.
    PrincessProof,
    Parts,
    Part,
    Charges,
    Trivial,
    Alpha,
    Beta,
    Delta,
    Gamma,
    Close,
    Log,
    Gives,
    Solution,
    /// The word `none`.
    Nothing,
    True,
    False,
    Divides,
    NotDivides,
    /// A number below 2^127, written without a leading zero.
    Number(u128),
    /// The constant with this number: `c` and the number.
    Name(u32),
    /// The part of a text with this number: `u` and the number.
    Use(u32),
    /// An entry of a log.
    Step(Entry),
    Equal,
    AtLeast,
    Plus,
    Minus,
    Times,
    And,
    Or,
    Blank,
    LineFeed,
    /// A word that is none of these, or a byte that begins none.
    Bad,
}

/// A word that begins a line which speaks of no rule.
#[derive(Clone, Copy)]
pub enum Word {
    /// `princess-proof`
    PrincessProof,
    Parts,
    Part,
    Charges,
    Log,
    Gives,
}

impl Word {
    /// How it is written.
    pub(crate) fn spelling(self) -> &'static [u8]
        ensures { result.now ≡ spelling (token_of self) }
    {
        match self {
            Word::PrincessProof => b"princess-proof".as_slice(),
            Word::Parts => b"parts".as_slice(),
            Word::Part => b"part".as_slice(),
            Word::Charges => b"charges".as_slice(),
            Word::Log => b"log".as_slice(),
            Word::Gives => b"gives".as_slice(),
        }
    }

    /// Whether the token is this word.
    pub(crate) fn is(self, token: Token) -> bool
        ensures { IsTrue result ↔ token ≡ token_of self }
    {
        match self {
            Word::PrincessProof => matches!(token, Token::PrincessProof),
            Word::Parts => matches!(token, Token::Parts),
            Word::Part => matches!(token, Token::Part),
            Word::Charges => matches!(token, Token::Charges),
            Word::Log => matches!(token, Token::Log),
            Word::Gives => matches!(token, Token::Gives),
        }
    }
}
