// What a model says, as the contract of a function with nothing to do.

ghost use Rattle.std.specs.Prelude.{◌≡◌, ℕ, ℤ, Bool, List, ◌∷◌, ◌++◌};
ghost use Rattle.model_table.specs.Models.{NoTruthAt, NoValueAt, truth_in, value_in};
ghost use Rattle.model_table.specs.declared.model.TruthEntry.{TruthEntry};
ghost use Rattle.model_table.specs.declared.model.ValueEntry.{ValueEntry};

/// A function has the value of its first row at a list of integers, else its default; a predicate the truth.
pub fn model_law()
    ensures first_value { (before after : List ValueEntry) (row : ValueEntry) (d : ℤ) (xs : List ℤ)
        → NoValueAt xs before → row.at ≡ xs → value_in (before ++ row ∷ after) d xs ≡ row.value }
    ensures default_value { (rows : List ValueEntry) (d : ℤ) (xs : List ℤ) → NoValueAt xs rows → value_in rows d xs ≡ d }
    ensures first_truth { (before after : List TruthEntry) (row : TruthEntry) (d : Bool) (xs : List ℤ)
        → NoTruthAt xs before → row.at ≡ xs → truth_in (before ++ row ∷ after) d xs ≡ row.truth }
    ensures default_truth { (rows : List TruthEntry) (d : Bool) (xs : List ℤ) → NoTruthAt xs rows → truth_in rows d xs ≡ d }
{}
