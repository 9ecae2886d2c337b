// The commands of a script (SMT-LIB 2.6, section 3.9), told apart by their form; the symbols that they declare and define; and
// the faults of declarations and definitions.
#![tactic(auto)]

mod command;
mod declaration;
mod expressions;
mod laws;
mod operators;
mod order;
mod refusal;
mod saying;
mod scopes;
mod table;
mod words;

pub use command::{Command, read_command};
pub use declaration::{
    declaration_refusal, declare, place, read_sort, sort_or_int, with_definition_faults,
};
pub use expressions::{Name, is_keyword, members, symbol};
pub use laws::least_law;
pub use operators::{is_reserved, is_unlisted};
pub use order::{place_in, sooner};
pub use refusal::ScriptRefusal;
pub use saying::Saying;
pub use scopes::Scopes;
pub use table::{Entry, Table};
