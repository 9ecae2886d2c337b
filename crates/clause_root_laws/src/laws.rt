// What the definitions of this crate mean, each law by a function with nothing to do.

ghost use Rattle.clause_set.specs.Kept.{AreFormed};
ghost use Rattle.clause_set.specs.Literals.{dnf_truth};
ghost use Rattle.clause_set.specs.declared.literal.Literal.{Literal};
ghost use Rattle.elim_laws.specs.Whole.{AreOver};
ghost use Rattle.formula.specs.Form.{Form, FormTruth, IsFormOver};
ghost use Rattle.formula.specs.Reduced.{HasReducedTerms};
ghost use Rattle.clause_root_laws.specs.Clausal.{dnf_form};
ghost use Rattle.clause_root_laws.specs.Prepared.{prepared};
ghost use Rattle.std.specs.Prelude.{◌≡◌, ◌↔◌, ℕ, ℤ, Bool, List, length, true};
ghost use Rattle.form_typed.specs.Truth.{Meaning};

/// The formula of a disjunction of clauses over n names is true exactly where the disjunction is, and is over n.
pub fn clausal_law()
    ensures truth { (w : Meaning) (n : ℕ) (d : List (List Literal)) (e : List ℤ) → length e ≡ n → AreFormed d → AreOver n d
        → FormTruth w (dnf_form n d) e ↔ (dnf_truth d e ≡ true) }
    ensures over { (n : ℕ) (d : List (List Literal)) → AreOver n d → IsFormOver n (dnf_form n d) }
{}

/// A prepared formula is true exactly where the formula is, in every interpretation, at every list of as many integers as it
/// has names, and is over as many.
pub fn prepared_law()
    ensures truth { (w : Meaning) (b : Bool) (n : ℕ) (f : Form) (left : ℕ) (e : List ℤ) → length e ≡ n → HasReducedTerms f → IsFormOver n f
        → FormTruth w (prepared b n f left).0 e ↔ FormTruth w f e }
    ensures over { (b : Bool) (n : ℕ) (f : Form) (left : ℕ) → HasReducedTerms f → IsFormOver n f → IsFormOver n (prepared b n f left).0 }
{}
