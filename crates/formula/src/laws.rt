// What the definitions of this crate mean, each the contract of a function with nothing to do.

ghost use Rattle.std.specs.Prelude.{◌≡◌, ◌≤◌, ◌+◌, ◌↔◌, ℕ, ℤ, List, length, true, ◌++◌};
ghost use Rattle.form_typed.specs.Truth.{Meaning};
ghost use Rattle.formula.specs.Duals.{dual};
ghost use Rattle.formula.specs.Form.{Form, FormTruth, IsFormOver, is_pure};
ghost use Rattle.formula.specs.Shifts.{IsBelow, shifted};
ghost use Rattle.formula.specs.Sizes.{depth, size};

/// A formula whose falsity is absurd is true. So a formula is true exactly where its negation is not.
pub fn stability_law()
    ensures { (w : Meaning) (f : Form) (e : List ℤ) → ¬ (¬ (FormTruth w f e)) → FormTruth w f e }
{}

/// Without predicates and functions the interpretation does not matter.
pub fn purity_law()
    ensures { (v w : Meaning) (f : Form) (e : List ℤ) → is_pure f ≡ true → FormTruth v f e → FormTruth w f e }
{}

/// A formula whose names from `length a` on are raised by `length mid` is true at the longer list exactly where the
/// formula is true at the list without `mid`. It speaks of names below n + b + k where the formula does below n + b,
/// and has predicates and functions exactly where the formula has.
pub fn shift_law()
    ensures truth { (w : Meaning) (a mid b : List ℤ) (f : Form)
        → FormTruth w (shifted (length a) (length mid) f) (a ++ (mid ++ b)) ↔ FormTruth w f (a ++ b) }
    ensures over { (n k b : ℕ) (f : Form) → IsFormOver (n + b) f → IsFormOver ((n + k) + b) (shifted n k f) }
    ensures pure { (n k : ℕ) (f : Form) → is_pure (shifted n k f) ≡ is_pure f }
{}

/// The dual of a formula without predicates and functions is true exactly where the formula is not. It speaks of the same
/// names, and has no predicate and function either.
pub fn dual_law()
    ensures truth { (w : Meaning) (f : Form) (e : List ℤ) → is_pure f ≡ true → FormTruth w (dual f).value e ↔ ¬ (FormTruth w f e) }
    ensures over { (n : ℕ) (f : Form) → IsFormOver n f → IsFormOver n (dual f).value }
    ensures pure { (f : Form) → is_pure (dual f).value ≡ is_pure f }
{}

/// A shifted formula and a dual are as large as the formula.
pub fn size_law()
    ensures shifted { (n k : ℕ) (f : Form) → size (shifted n k f) ≡ size f }
    ensures shifted_depth { (n k : ℕ) (f : Form) → depth (shifted n k f) ≡ depth f }
    ensures dual { (f : Form) → size (dual f).value ≡ size f }
    ensures dual_depth { (f : Form) → depth (dual f).value ≡ depth f }
{}

/// All names of a formula over n, bound ones included, are below n and its depth.
pub fn depth_law()
    ensures { (n b : ℕ) (f : Form) → n + depth f ≤ b → IsFormOver n f → IsBelow b f }
{}
