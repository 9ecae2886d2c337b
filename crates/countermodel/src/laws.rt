// What probe values are, as the contract of a function with nothing to do.

ghost use Rattle.countermodel.specs.Probes.{AreProbes, IsProbe, probe_value, probe_values};
ghost use Rattle.linear_term.specs.Range.{InRange};
ghost use Rattle.std.specs.List.{AllByRecursion};
ghost use Rattle.std.specs.Prelude.{◌≡◌, All, List, None, Some, ℤ};
ghost use Rattle.form_typed.specs.declared.typed.Sort.{Sort};
ghost use Rattle.form_typed.specs.Sorts.{AreValuesOf, IsSortRanged, IsValueOf};

/// The probe value of a type is the one of its values that has the least absolute value. A type without a value has none, and no
/// other one; so there are no probe values exactly where no integers are values of the types. They are coefficients where the
/// bounds of the types are.
pub fn probe_law()
    ensures value { (s : Sort) (v : ℤ) → probe_value s ≡ Some v → IsProbe s v }
    ensures none { (s : Sort) → probe_value s ≡ None → (v : ℤ) → ¬ (IsValueOf s v) }
    ensures values { (ss : List Sort) (vs : List ℤ) → probe_values ss ≡ Some vs → AreProbes ss vs }
    ensures typed { (ss : List Sort) (vs : List ℤ) → probe_values ss ≡ Some vs → AreValuesOf ss vs }
    ensures nowhere { (ss : List Sort) → probe_values ss ≡ None → (vs : List ℤ) → ¬ (AreValuesOf ss vs) }
    ensures range { (ss : List Sort) (vs : List ℤ) → All IsSortRanged ss → probe_values ss ≡ Some vs → AllByRecursion InRange vs }
{}
