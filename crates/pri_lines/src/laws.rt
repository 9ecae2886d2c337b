// What a printed constraint says of its problem, as the contract of a function with nothing to do.

ghost use Rattle.clause_set.specs.declared.literal.Literal.{Literal};
ghost use Rattle.pri_lines.specs.Meaning.{CoversRoot, Supports};
ghost use Rattle.pri_lines.specs.Constraint.{IsTextOf};
ghost use Rattle.pri_typing.specs.Problems.{Holds};
ghost use Rattle.pri_typing.specs.WellFormed.{IsWellFormed};
ghost use Rattle.pri_typing.specs.declared.problem.Problem.{Problem};
ghost use Rattle.std.specs.Prelude.{◌≡◌, ℕ, ℤ, List, []};
ghost use Rattle.form_typed.specs.Truth.{Meaning};

/// Of a constraint that covers the encoding of a problem, and values that satisfy it, the printed text says that the problem holds
/// wherever the constraint is true, as it is at the values; without existential constants the problem holds.
pub fn supports_law()
    ensures printed { (w : Meaning) (p : Problem) (d : List (List Literal)) (vs : List ℤ) (x : List ℕ) → IsWellFormed p → CoversRoot p d vs → IsTextOf p d x → Supports w p x vs }
    ensures closed { (w : Meaning) (p : Problem) (d : List (List Literal)) (vs : List ℤ) → IsWellFormed p → CoversRoot p d vs → p.existentials ≡ [] → Holds w p [] }
{}
