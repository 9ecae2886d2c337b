// The problem files: their grammar, what a file is read as, and the first token that no file has there.
#![tactic(auto)]

mod binders;
mod blocks;
mod classes;
mod constants;
mod cursor;
mod declarations;
mod files;
mod first;
mod formulas;
mod interpolant;
mod items;
mod laws;
mod names;
mod terms;
mod tree;
mod types;

pub use blocks::file;
pub use files::read;
pub use first::{completion_law, first_refusal_law};
pub use laws::{machine_law, one_file_law};
pub use pri_tokens::{
    Lexeme, Terminal, Token, TokenKind, kind_of, lexemes, spelling, spelling_law, tokens,
    tokens_law,
};
pub use tree::{
    Added, Block, Comparison, Declared, Expr, File, Form, Item, Name, NameSet, ReadRefusal,
    TypeName,
};
