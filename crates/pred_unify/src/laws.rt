// What the pairs and the closing formula of a sequent say, each the contract of a function with nothing to do.

ghost use Rattle.std.specs.Prelude.{◌≡◌, ℕ, ℤ, Bool, List, length, true};
ghost use Rattle.std.specs.List.{AllByRecursion};
ghost use Rattle.form_typed.specs.Truth.{Meaning};
ghost use Rattle.formula.specs.Form.{FormTruth, is_pure};
ghost use Rattle.sequent.specs.Sequent.{Sequent, AreFalse, SequentTruth, IsFormedSequent};
ghost use Rattle.sequent.specs.Leaf.{is_leaf};
ghost use Rattle.pred_unify.specs.Pairs.{pairs_of, closing_of};
ghost use Rattle.pred_unify.specs.Leaf.{table_of};

/// Wherever the closing formula is true, so is the sequent.
pub fn closing_law()
    ensures pairs { (w : Meaning) (s : Sequent) (e : List ℤ) → IsFormedSequent s → length e ≡ s.count
        → ¬ (AllByRecursion (λ f. ¬ (FormTruth w f e)) (pairs_of s.members).value) → SequentTruth w s e }
    ensures closing { (w : Meaning) (s : Sequent) (e : List ℤ) → IsFormedSequent s → length e ≡ s.count
        → FormTruth w (closing_of s).value e → SequentTruth w s e }
{}

/// The closing formula has no predicate and no function.
pub fn pure_law()
    ensures { (s : Sequent) → is_pure (closing_of s).value ≡ true }
{}

/// A saturated leaf is tight: its table refutes it wherever its closing formula is false.
pub fn leaf_law()
    ensures { (s : Sequent) (e : List ℤ) → IsFormedSequent s → length e ≡ s.count → AllByRecursion (λ m. is_leaf m.formula ≡ true) s.members
        → ¬ (FormTruth (table_of s.members e) (closing_of s).value e) → AreFalse (table_of s.members e) e s.members }
{}
