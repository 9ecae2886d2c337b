// What miniscoping keeps, as the contract of a function with nothing to do.

ghost use Rattle.formula.specs.Form.{Form, FormTruth, IsFormOver};
ghost use Rattle.formula.specs.Sizes.{depth};
ghost use Rattle.form_miniscope.specs.Miniscope.{miniscoped, scoped_below};
ghost use Rattle.std.specs.Prelude.{◌≡◌, ◌≤◌, ◌*◌, ◌↔◌, ℕ, ℤ, List, length};
ghost use Rattle.form_typed.specs.Truth.{Meaning};

/// A miniscoped formula is true exactly where the formula is, in every interpretation, at every list of as many integers as
/// it has names; it is over as many, and at most twice as deep. So is one that is miniscoped below its first for-alls.
pub fn miniscope_law()
    ensures truth { (w : Meaning) (n : ℕ) (f : Form) (e : List ℤ) → length e ≡ n → FormTruth w (miniscoped n f) e ↔ FormTruth w f e }
    ensures over { (n : ℕ) (f : Form) → IsFormOver n f → IsFormOver n (miniscoped n f) }
    ensures depth { (n : ℕ) (f : Form) → depth (miniscoped n f) ≤ 2 * depth f }
    ensures truth_below { (w : Meaning) (n : ℕ) (f : Form) (e : List ℤ) → length e ≡ n → FormTruth w (scoped_below n f) e ↔ FormTruth w f e }
    ensures over_below { (n : ℕ) (f : Form) → IsFormOver n f → IsFormOver n (scoped_below n f) }
    ensures depth_below { (n : ℕ) (f : Form) → depth (scoped_below n f) ≤ 2 * depth f }
{}
