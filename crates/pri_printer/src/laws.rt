// What printed constraints mean, each the contract of a function with nothing to do.

ghost use Rattle.std.specs.Prelude.{◌≡◌, ◌↔◌, ◌<◌, false, length, List, true, ℕ, ℤ};
ghost use Rattle.clause_set.specs.declared.literal.Literal.{Literal};
ghost use Rattle.clause_set.specs.Literals.{dnf_truth};
ghost use Rattle.pri_printer.specs.Names.{DnfNames, IsVariableBelow};
ghost use Rattle.pri_printer.specs.Printed.{dnf_formula};
ghost use Rattle.pri_printer.specs.Quotient.{quotient_name, quotient_number};
ghost use Rattle.pri_typing.specs.declared.problem.Problem.{Problem};
ghost use Rattle.pri_typing.specs.Problems.{IsTrueAt, SpeaksOfExistentials};
ghost use Rattle.base_texts.specs.Texts.{is_among};
ghost use Rattle.pri_typing.specs.WellFormed.{IsWellFormed, names_of_symbols};
ghost use Rattle.form_typed.specs.Truth.{Meaning};

/// A normal form over the existential constants of a problem is printed as a formula that speaks of these alone, and that
/// is true at their values, whatever the universal constants and the interpretation are, exactly where the normal form is.
pub fn constraint_law()
    ensures speaks { (p : Problem) (d : List (List Literal)) → DnfNames (IsVariableBelow (length p.existentials)) d → SpeaksOfExistentials p (dnf_formula p d) }
    ensures truth { (w : Meaning) (p : Problem) (d : List (List Literal)) (e : List ℤ) → DnfNames (IsVariableBelow (length p.existentials)) d
        → length e ≡ length p.existentials → IsTrueAt w p (dnf_formula p d) e ↔ (dnf_truth d e ≡ true) }
{}

/// The number of the quotient's name is the least with which no symbol of a well-formed problem is named.
#[tactic(auto, using(crate::proofs::Printing::quotient_free_law, crate::proofs::Printing::quotient_least))]
pub fn quotient_law()
    ensures free { (p : Problem) → IsWellFormed p → is_among (quotient_name (quotient_number p)) (names_of_symbols p) ≡ false }
    ensures least { (p : Problem) (i : ℕ) → i < quotient_number p → is_among (quotient_name i) (names_of_symbols p) ≡ true }
{}
