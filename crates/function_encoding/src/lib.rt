// The encoding of a problem in code: how large it is, counted without building it; the formula itself, with functions as
// relations and conditions as cases; and what parts assume. What it is, and that it keeps the truth, stands in the crate
// below.
#![tactic(auto)]

mod actions;
mod answer;
mod atoms;
mod bounds;
mod building;
mod component;
mod components;
mod conditions;
mod counting;
mod encoder;
mod instruction;
mod instructions;
mod largeness;
mod marks;
mod naming;
mod parts;
mod plain;
mod problem;
mod stack;
mod stop;
mod stops;

pub use answer::{EncodeRefusal, Encoded};
pub use counting::{Extent, extent_of};
pub use largeness::is_large;
pub use marks::marks_of;
pub use parts::encode_parts;
pub use problem::encode;
