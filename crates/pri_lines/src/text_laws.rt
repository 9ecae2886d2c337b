// What the formula of a printed constraint says, as the contract of a function with nothing to do.

ghost use Rattle.clause_set.specs.Literals.{dnf_truth};
ghost use Rattle.clause_set.specs.declared.literal.Literal.{Literal};
ghost use Rattle.pri_lines.specs.Constraint.{IsTextOf};
ghost use Rattle.elim_laws.specs.Whole.{AreOver};
ghost use Rattle.pri_printer.specs.Printed.{dnf_formula};
ghost use Rattle.pri_typing.specs.Problems.{IsTrueAt, SpeaksOfExistentials};
ghost use Rattle.pri_typing.specs.declared.problem.Problem.{Problem};
ghost use Rattle.pri_problem.specs.Reads.{AreSame};
ghost use Rattle.std.specs.Prelude.{◌≡◌, ◌↔◌, ℕ, ℤ, List, length, true};
ghost use Rattle.form_typed.specs.Truth.{Meaning};

/// The formula of a constraint over the existential constants speaks of them alone, and is true at values of them exactly
/// where the constraint is, in every interpretation. The same problem has the same texts of constraints.
pub fn constraint_text_law()
    ensures alone { (p : Problem) (d : List (List Literal)) → AreOver (length p.existentials) d → SpeaksOfExistentials p (dnf_formula p d) }
    ensures truth { (w : Meaning) (p : Problem) (d : List (List Literal)) (e : List ℤ) → AreOver (length p.existentials) d → length e ≡ length p.existentials
        → IsTrueAt w p (dnf_formula p d) e ↔ (dnf_truth d e ≡ true) }
    ensures same { (p q : Problem) (d : List (List Literal)) (x : List ℕ) → AreSame p q → IsTextOf p d x → IsTextOf q d x }
{}
