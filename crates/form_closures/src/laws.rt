// What terms put for names keep, as the contract of a function with nothing to do.

ghost use Rattle.std.specs.Prelude.{◌≡◌, ℕ, ℤ, List};
ghost use Rattle.std.specs.List.{AllByRecursion};
ghost use Rattle.linear_term.specs.Linear.{Linear, IsOver, value_of};
ghost use Rattle.formula.specs.Form.{values_of};
ghost use Rattle.form_closures.specs.Putting.{put_in};

/// A term with terms for its names has the value that the term has at their values, and is over as many names as they are.
pub fn put_law()
    ensures value { (ts : List Linear) (t : Linear) (e : List ℤ) → value_of (put_in ts t) e ≡ value_of t (values_of ts e) }
    ensures over { (n : ℕ) (ts : List Linear) (t : Linear) → AllByRecursion (IsOver n) ts → IsOver n (put_in ts t) }
{}
