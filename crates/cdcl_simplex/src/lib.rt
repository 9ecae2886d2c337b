// Bounds on sums of rational variables: the general simplex over integer rows, with reasons as Farkas sums (Dutertre and
// de Moura, A fast linear-arithmetic solver for DPLL(T), 2006).
#![tactic(auto)]

mod bounds;
mod repair;
mod rows;

pub use bounds::{Bound, Bounded, Share, Simplex};
pub use rows::{Entry, NOWHERE, Row, Tableau};
