// The constraint sequent calculus (Rümmer, A constraint sequent calculus for first-order logic with linear integer
// arithmetic, 2008), kept one-sided: a sequent is a list of formulas of which one is to be true. Here are its rules, each
// in a file of its own, and which rule comes first. A constraint is spoken of by what it says of integers.
#![tactic(auto)]

mod added;
mod alpha;
mod beta;
mod branches;
mod delta;
mod gamma;
mod laws;
mod member;
mod picking;
mod premises;
mod starting;

pub use added::Added;
pub use branches::{branch, count_after, width_of};
pub use laws::{covers_law, first_law, formed_law, last_law, pick_law, room_law, tight_law};
pub use member::{Member, Pick, Sequent, Shape};
pub use picking::{fits, takes};
pub use premises::{premise, width};
pub use starting::start;
