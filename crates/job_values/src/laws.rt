// What such values say, and where there are some, each as the contract of a function with nothing to do.

ghost use Rattle.base_budget.specs.Ending.{IsOutOfRange, IsOutOfSteps};
ghost use Rattle.base_integers.specs.Entry.{entry};
ghost use Rattle.form_typed.specs.Formula.{formula};
ghost use Rattle.form_typed.specs.Sorts.{AreValuesOf};
ghost use Rattle.form_typed.specs.Truth.{Meaning, Truth};
ghost use Rattle.job_values.specs.Values.{AreFalseValues, EndsValid, IsDenied, no_model};
ghost use Rattle.model_refuting.specs.Refuting.{IsModelCounterexample};
ghost use Rattle.model_runs.specs.Ends.{run_end};
ghost use Rattle.pri_problem.specs.Encoded.{Fits};
ghost use Rattle.pri_typing.specs.Problems.{Holds, IsPure, IsRefuted};
ghost use Rattle.pri_typing.specs.WellFormed.{IsWellFormed};
ghost use Rattle.pri_typing.specs.declared.problem.Problem.{Problem};
ghost use Rattle.solve_laws.specs.Best.{IsNearer};
ghost use Rattle.std.specs.Prelude.{◌≡◌, ◌<◌, ℕ, ℤ, List, [], length, take};

/// At the values with which its canonical run ends valid a problem holds, in every interpretation.
pub fn run_law()
    ensures { (budget : ℕ) (p : Problem) (vs : List ℤ) (w : Meaning) → IsWellFormed p → EndsValid budget p vs → Holds w p vs }
{}

/// The values are of their types, and in every interpretation the formula is false there: with the model that says nothing they are a
/// counterexample. They are the best such values: constant by constant, none that refute the problem and agree with them before have a
/// value nearer to 0.
pub fn values_law()
    ensures fails { (budget : ℕ) (p : Problem) (vs : List ℤ) (w : Meaning) → IsWellFormed p → p.existentials ≡ [] → AreFalseValues budget p vs → ¬ (Truth w (formula p.formula) vs) }
    ensures is { (budget : ℕ) (p : Problem) (vs : List ℤ) → IsWellFormed p → p.existentials ≡ [] → AreFalseValues budget p vs → IsModelCounterexample p [] no_model vs }
    ensures best { (budget : ℕ) (p : Problem) (vs us : List ℤ) (w : Meaning) (j : ℕ) → IsWellFormed p → p.existentials ≡ [] → IsPure p → AreFalseValues budget p vs
        → length us ≡ length p.universals → AreValuesOf p.universal_types us → ¬ (Truth w (formula p.formula) us)
        → j < length p.universals → take j us ≡ take j vs → ¬ (IsNearer (entry us j) (entry vs j)) }
{}

/// A problem without existential constants, predicates and functions that is refuted has such values, unless its negation has no
/// encoding, or the run of that is cut by the budget or by a number that leaves the range.
pub fn found_law()
    ensures { (budget : ℕ) (p q : Problem) → IsWellFormed p → p.existentials ≡ [] → IsPure p → IsRefuted p → IsDenied p q → Fits q
        → ¬ (IsOutOfSteps (run_end budget q)) → ¬ (IsOutOfRange (run_end budget q)) → (vs : List ℤ) × AreFalseValues budget p vs }
{}
