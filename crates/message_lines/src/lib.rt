// The messages of the program, in their parts: what a message is, its lines on standard error, and the tokens and words of which its
// sentence is made.
#![tactic(auto)]

mod answers;
mod foreign;
mod messages;
mod near;
mod page;
mod places;
mod script;
mod script_phrases;
mod slip;
mod spots;

pub use answers::{Refusal, find_refusal, last_line, number};
pub use foreign::{
    begins_with_one, is_among, is_assumption_block, is_block_word, is_foreign_block,
    is_foreign_type, is_quantifier_word, is_remainder, is_utf_16, paired, sign_for_symbol,
    sign_for_word,
};
pub use messages::{MOST, Message, Messages, Place, Severity, Subject, lines};
pub use near::{find_near, is_near};
pub use page::Page;
pub use places::{Line, cut, line_at, numbered_line};
pub use script::{Script, Span};
pub use script_phrases::{Phrase, in_front, infix, is_infix, is_operator, operator_for};
pub use slip::{Hole, Slip};
pub use spots::{Spot, numbered, put_placeless, put_refused};
