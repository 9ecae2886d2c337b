// Matching of patterns of quantified formulas against the applications and predicates of a present model.
#![tactic(auto)]

mod choosing;
mod collecting;
mod items;
mod join;
mod matches;
mod pattern;
mod rows;
mod triggers;

pub use choosing::terms_of;
pub use collecting::{Collector, Found};
pub use items::{Items, Source, Table};
pub use join::{Join, Plan};
pub use matches::{Match, Matches};
pub use pattern::{MOST_NAMES, Multiple, Names, Pattern, Shape, Step, Symbol, Trigger, names_of};
pub use rows::RowSet;
pub use triggers::Triggers;
