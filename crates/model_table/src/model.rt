// Finite models with defaults, and the interpretation that such a model is.

ghost use Rattle.std.specs.Prelude.{◌≡◌, []};
ghost use Rattle.model_table.specs.Models.{truth_in, value_in};

use sqlite_items::Items;
use std::alloc::Global;

/// A function has this value at these integers.
#[derive(Debug, Drop)]
pub struct ValueEntry {
    pub at: Items<i128>,
    pub value: i128,
}

/// A function: the value of the first row for a list of integers, and the default where no row is for them.
#[derive(Debug, Drop)]
pub struct FunctionModel {
    pub rows: Items<ValueEntry>,
    pub default: i128,
}

/// A predicate has this truth at these integers.
#[derive(Debug, Drop)]
pub struct TruthEntry {
    pub at: Items<i128>,
    pub truth: bool,
}

/// A predicate: the truth of the first row for a list of integers, and the default where no row is for them.
#[derive(Debug, Drop)]
pub struct PredicateModel {
    pub rows: Items<TruthEntry>,
    pub default: bool,
}

/// A finite interpretation. Functions and predicates by their numbers; one that is missing is 0, or false, everywhere.
#[derive(Debug, Drop)]
pub struct Model {
    pub functions: Items<FunctionModel>,
    pub predicates: Items<PredicateModel>,
}

impl form_typed::World for Model {
    ghost use Rattle.model_table.specs.Models.{meaning_of};

    ghost meaning = { λ m. meaning_of m };
}

impl Model {
    /// The model in which each function is 0 and each predicate false everywhere. Takes no memory.
    pub fn empty(alloc: Global) -> Model
        ensures functions { result.functions ≡ [] }
        ensures predicates { result.predicates ≡ [] }
    {
        Model {
            functions: Items::new(alloc),
            predicates: Items::new(alloc),
        }
    }
}

impl FunctionModel {
    /// The value at these integers.
    pub fn value(&self, xs: &[i128]) -> i128
        ensures { result ≡ value_in self.now.rows self.now.default xs.now }
    {
        for row in self.rows.as_slice() {
            if row.at.as_slice() == xs {
                return row.value;
            }
        }
        self.default
    }
}

impl PredicateModel {
    /// The truth at these integers.
    pub fn truth(&self, xs: &[i128]) -> bool
        ensures { result ≡ truth_in self.now.rows self.now.default xs.now }
    {
        for row in self.rows.as_slice() {
            if row.at.as_slice() == xs {
                return row.truth;
            }
        }
        self.default
    }
}
