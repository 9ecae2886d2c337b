// The formula without predicates and functions that a formula is in a finite model, with terms for its names, of which some are
// known numbers: what is known is said at once, predicates and values of functions go by their rows and defaults.
#![tactic(auto)]

mod atoms;
mod choosing;
mod closing;
mod connecting;
mod effort;
mod expanding;
mod fault;
mod placing;
mod predicates;
mod putting;
mod reading;

pub use atoms::{
    equals, equation, inequality, inequation, is_false, is_true, known, matches, truth,
};
pub use choosing::{Guard, choices, differing};
pub use connecting::{all, any, both, either, push_all, push_any};
pub use effort::Effort;
pub use expanding::expand;
pub use fault::Fault;
pub use predicates::predicate;
pub use putting::{number, put_all, put_in, with_term};
