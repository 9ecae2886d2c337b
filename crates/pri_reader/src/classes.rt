// What a token begins, by its terminal.

ghost use Rattle.pri_reader.specs.Classes.{adding_of, comparison_of, heading_of, opening_of, prefix_of};
ghost use Rattle.std.specs.Prelude.{◌≡◌};

use crate::tree::Comparison;
use pri_tokens::Terminal;

/// What begins a formula that is no relation.
#[derive(Clone, Copy)]
pub enum Prefix {
    Not,
    /// true for `\forall`
    Quantifier(bool),
    Part,
}

/// What begins a term, or a formula in parentheses.
#[derive(Clone, Copy)]
pub enum Opening {
    Minus,
    Number,
    Truth(bool),
    Identifier,
    Parenthesis,
    If,
    Abs,
    /// `\min`, or `\max` for true
    Pair(bool),
}

/// What begins a block.
#[derive(Clone, Copy)]
pub enum Heading {
    /// true for `\universalConstants`
    Constants(bool),
    /// true for `\functions`
    Items(bool),
    Problem,
    Interpolant,
}

/// The formula that is no relation which a token with this terminal begins.
pub fn prefixed_by(terminal: Terminal) -> Option<Prefix>
    ensures { result ≡ prefix_of terminal }
{
    match terminal {
        Terminal::Not => Some(Prefix::Not),
        Terminal::Forall => Some(Prefix::Quantifier(true)),
        Terminal::Exists => Some(Prefix::Quantifier(false)),
        Terminal::Part => Some(Prefix::Part),
        _ => None,
    }
}

/// The term, or the formula in parentheses, that a token with this terminal begins.
pub fn opened_by(terminal: Terminal) -> Option<Opening>
    ensures { result ≡ opening_of terminal }
{
    match terminal {
        Terminal::Minus => Some(Opening::Minus),
        Terminal::Number => Some(Opening::Number),
        Terminal::True => Some(Opening::Truth(true)),
        Terminal::False => Some(Opening::Truth(false)),
        Terminal::Identifier => Some(Opening::Identifier),
        Terminal::OpenParenthesis => Some(Opening::Parenthesis),
        Terminal::If => Some(Opening::If),
        Terminal::Abs => Some(Opening::Abs),
        Terminal::Min => Some(Opening::Pair(false)),
        Terminal::Max => Some(Opening::Pair(true)),
        _ => None,
    }
}

/// The block that a token with this terminal begins.
pub fn headed_by(terminal: Terminal) -> Option<Heading>
    ensures { result ≡ heading_of terminal }
{
    match terminal {
        Terminal::UniversalConstants => Some(Heading::Constants(true)),
        Terminal::ExistentialConstants => Some(Heading::Constants(false)),
        Terminal::Functions => Some(Heading::Items(true)),
        Terminal::Predicates => Some(Heading::Items(false)),
        Terminal::Problem => Some(Heading::Problem),
        Terminal::Interpolant => Some(Heading::Interpolant),
        _ => None,
    }
}

/// The comparison that this sign is.
pub fn comparison(terminal: Terminal) -> Option<Comparison>
    ensures { result ≡ comparison_of terminal }
{
    match terminal {
        Terminal::Equal => Some(Comparison::Equal),
        Terminal::Unequal => Some(Comparison::Unequal),
        Terminal::Less => Some(Comparison::Less),
        Terminal::AtMost => Some(Comparison::AtMost),
        Terminal::Greater => Some(Comparison::Greater),
        Terminal::AtLeast => Some(Comparison::AtLeast),
        _ => None,
    }
}

/// Whether this sign adds a term, and then whether it is a minus.
pub fn adding(terminal: Terminal) -> Option<bool>
    ensures { result ≡ adding_of terminal }
{
    match terminal {
        Terminal::Plus => Some(false),
        Terminal::Minus => Some(true),
        _ => None,
    }
}
