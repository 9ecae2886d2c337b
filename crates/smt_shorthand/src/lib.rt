// Commands of SMT-LIB that are short for others, written out before the commands of a script are judged.
#![tactic(auto)]

mod copying;
mod defining;
mod equations;
mod functions;
mod places;
mod resolving;
mod sorts;
mod table;
mod writing;

pub use copying::copy;
pub use defining::{Progress, begins_with, command_in, sorts_written_out};
pub use equations::{assertion, declaration, first_of, second_of, variable_of};
pub use functions::{Function, functions_written_out};
pub use places::{Part, Row, behind, first};
pub use resolving::{resolve, symbol_at};
pub use sorts::{DefinedSort, Sense, find_sort, read_sense};
pub use table::{SortTable, after, definition, is_word, with_sort};
pub use writing::written_out;
