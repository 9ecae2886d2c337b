// What naming an application keeps, as the contract of a function with nothing to do.

ghost use Rattle.form_naming.specs.Naming.{application, are_over, reading, renamed};
ghost use Rattle.formula.specs.Form.{Form, FormTruth, IsFormOver};
ghost use Rattle.formula.specs.Reduced.{HasReducedTerms};
ghost use Rattle.linear_term.specs.Linear.{Linear};
ghost use Rattle.std.specs.Prelude.{◌≡◌, ◌↔◌, ◌+◌, ◌∷◌, ◌++◌, [], ℕ, ℤ, List, Some, length, true};
ghost use Rattle.form_typed.specs.Truth.{Meaning};

/// A reading of an application before a body is true exactly where a formula is, if the body is true where the formula with
/// the name in place of the application is. Both formulas are over as many names, and reduced.
pub fn naming_law()
    ensures found { (n f : ℕ) (ss : List Linear) (g : Form) → application n g ≡ Some (f, ss) → are_over n ss ≡ true }
    ensures truth { (w : Meaning) (n f : ℕ) (ss : List Linear) (g body : Form) (e : List ℤ) → length e ≡ n → are_over n ss ≡ true
        → ((v : ℤ) → FormTruth w body (e ++ v ∷ []) ↔ FormTruth w (renamed n f ss g) (e ++ v ∷ []))
        → FormTruth w (reading n f ss body) e ↔ FormTruth w g e }
    ensures over { (n f : ℕ) (ss : List Linear) (g : Form) → IsFormOver n g → IsFormOver (n + 1) (renamed n f ss g) }
    ensures reading_over { (n f : ℕ) (ss : List Linear) (body : Form) → are_over n ss ≡ true → IsFormOver (n + 1) body → IsFormOver n (reading n f ss body) }
    ensures reduced { (n f : ℕ) (ss : List Linear) (g : Form) → HasReducedTerms g → HasReducedTerms (renamed n f ss g) }
{}
