// The tokens of a problem file: which bytes belong together, and what each such group says to the grammar.
#![tactic(auto)]

mod laws;
mod scanner;
mod spellings;
mod terminals;

pub use laws::{spelling_law, tokens_law};
pub use scanner::{lexemes, spelling, tokens};
pub use terminals::{Lexeme, Terminal, Token, TokenKind, kind_of};
