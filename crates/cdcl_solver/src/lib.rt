// The clause search of a closed formula, or of a formula at integers for its names, from its root to the text of a proof or to a model.
#![tactic(auto)]

mod advising;
mod charging;
mod guessing;
mod modelling;
mod shrinking;
mod solving;
mod squeezing;
mod stopping;
mod target;
mod writing;

pub use solving::{Found, search, search_at};
