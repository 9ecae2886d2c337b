// Interpretations of the predicates and functions of a problem, and those that a finite table gives.

ghost use Rattle.std.specs.Prelude.{◌≡◌, []};

use sqlite_items::Items;
use std::alloc::Global;

/// An interpretation: a truth for each predicate and a value for each function, by their numbers, at each list of
/// integers. It has no call, so a function that is handed one cannot look into it, and what it promises in one it
/// promises in every one.
pub trait World {
    ghost use Rattle.form_typed.specs.Truth.{Meaning};

    // What the predicates and functions are.
    ghost meaning: { Self → Meaning };
}

/// The predicate `id` is true at these integers.
#[derive(Debug, Drop)]
pub struct TruthRow {
    pub id: u32,
    pub at: Items<i128>,
}

/// The function `id` has this value at these integers.
#[derive(Debug, Drop)]
pub struct ValueRow {
    pub id: u32,
    pub at: Items<i128>,
    pub value: i128,
}

/// A finite interpretation: a predicate is true exactly at its rows, and a function has the value of its first row at
/// a list of integers, else 0.
#[derive(Debug, Drop)]
pub struct Table {
    pub truths: Items<TruthRow>,
    pub values: Items<ValueRow>,
}

impl Table {
    /// The table without rows: no predicate is true anywhere, and every function is 0. Takes no memory.
    pub fn empty(alloc: Global) -> Table
        ensures truths { result.truths ≡ [] }
        ensures values { result.values ≡ [] }
    {
        Table {
            truths: Items::new(alloc),
            values: Items::new(alloc),
        }
    }
}

impl World for Table {
    ghost use Rattle.form_typed.specs.Table.{meaning_of};

    ghost meaning = { λ t. meaning_of t };
}
