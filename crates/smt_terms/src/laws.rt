// What terms mean, each law the contract of a function with nothing to do. They hold in every interpretation, for every term,
// at every list of integers of the Int constants.

ghost use Rattle.std.specs.Prelude.{◌≡◌, ◌↔◌, ℤ, List, [], length, All};
ghost use Rattle.form_typed.specs.Truth.{Meaning, Truth};
ghost use Rattle.smt_terms.specs.Term.{PlacedTerm};
ghost use Rattle.smt_terms.specs.Operators.{Value};
ghost use Rattle.smt_terms.specs.Evaluation.{Globals, Has, IsTrue, SymbolHas};
ghost use Rattle.smt_terms.specs.Translation.{asserted, said, symbol_said};
ghost use Rattle.smt_terms.specs.Scripts.{CheckLaw, Command, checks};
ghost use Rattle.smt_terms.specs.Meaning.{AreConstantsBelow, IsValue};

/// A term with `let` and `define-fun` written out has the value that it has where they are evaluated, and an asserted term
/// becomes a formula that is true exactly where the term is.
pub fn written_out_law()
    ensures value { (w : Meaning) (u : List ℤ) (gs : Globals) (t : PlacedTerm) (v : Value) → AreConstantsBelow (length u) gs
        → Has (SymbolHas w u gs) [] t (λ x. x ≡ v) ↔ IsValue w (said (symbol_said gs) [] t (length u)) u v }
    ensures truth { (w : Meaning) (u : List ℤ) (gs : Globals) (t : PlacedTerm) → AreConstantsBelow (length u) gs
        → Truth w (asserted gs (length u) t) u ↔ IsTrue w u gs t }
{}

/// A term has one value: it has not two values, and it cannot fail to have one.
pub fn value_law()
    ensures one_value { (w : Meaning) (u : List ℤ) (gs : Globals) (t : PlacedTerm) (v x : Value) → AreConstantsBelow (length u) gs
        → Has (SymbolHas w u gs) [] t (λ y. y ≡ v) → Has (SymbolHas w u gs) [] t (λ y. y ≡ x) → v ≡ x }
    ensures some_value { (w : Meaning) (u : List ℤ) (gs : Globals) (t : PlacedTerm) → AreConstantsBelow (length u) gs
        → ¬ ((v : Value) → ¬ (Has (SymbolHas w u gs) [] t (λ x. x ≡ v))) }
{}

/// The formula of a check is true, in an interpretation at integers of the Int constants, exactly where the assertions before
/// it are not all true there, and false exactly where they are.
pub fn checks_law()
    ensures { (cs : List Command) → All CheckLaw (checks cs) }
{}
