// Which values solving finds, as the contract of a function with nothing to do.

ghost use Rattle.clause_set.specs.declared.literal.Literal.{Literal};
ghost use Rattle.linear_term.specs.Range.{InRange};
ghost use Rattle.base_budget.specs.Runs.{raw_stay};
ghost use Rattle.solve_laws.specs.Solutions.{IsGiven, solving};
ghost use Rattle.std.specs.List.{AllByRecursion};
ghost use Rattle.std.specs.Prelude.{◌≡◌, List, Some, true, ℕ, ℤ};

/// Where no number that solving computes leaves the range of coefficients, the values that it finds are in that range.
pub fn range_law()
    ensures { (n : ℕ) (d : List (List Literal)) (vs : List ℤ) → IsGiven n d → (solving n d).value ≡ Some vs → raw_stay (solving n d).events ≡ true → AllByRecursion InRange vs }
{}
