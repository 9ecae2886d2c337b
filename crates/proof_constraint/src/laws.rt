// What the definition of the line `gives` means.

ghost use Rattle.clause_set.specs.declared.literal.Literal.{Literal};
ghost use Rattle.proof_constraint.specs.Text.{AreClauses, gives_text};
ghost use Rattle.proof_tokens.specs.Reading.{Cuts, IsRefusedAt};
ghost use Rattle.std.specs.Prelude.{◌≡◌, List, ℕ};

/// A line `gives` that bytes begin with is the only one, and it is not refused.
pub fn given_law()
    ensures one { (d e : List (List Literal)) (bytes r s : List ℕ) → AreClauses d → AreClauses e → Cuts (gives_text d) bytes r → Cuts (gives_text e) bytes s → (d ≡ e) × (r ≡ s) }
    ensures taken { (d : List (List Literal)) (bytes rest : List ℕ) (left : ℕ) → AreClauses d → Cuts (gives_text d) bytes rest → IsRefusedAt AreClauses gives_text bytes left → ⊥ }
{}
