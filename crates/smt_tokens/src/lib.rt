// The tokens of a script (SMT-LIB 2.6, section 3.1): which bytes belong together, and what each such group is.
#![tactic(auto)]

mod bytes;
mod laws;
mod scanner;
mod strings;
mod terminals;

pub use laws::tokens_law;
pub use scanner::lexemes;
pub use terminals::{Lexeme, Terminal};
