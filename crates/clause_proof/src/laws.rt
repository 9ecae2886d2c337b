// What clause proofs mean, each law by a function with nothing to do.

ghost use Rattle.std.specs.Prelude.{◌≡◌, ℕ, ℤ, List};
ghost use Rattle.form_typed.specs.Truth.{Meaning};
ghost use Rattle.formula.specs.Form.{Form, FormTruth};
ghost use Rattle.clause_proof.specs.declared.line.Line.{Line};
ghost use Rattle.clause_proof.specs.declared.line.Literal.{Literal};
ghost use Rattle.clause_proof.specs.Clauses.{State, IsFormedState};
ghost use Rattle.clause_proof.specs.Lines.{after};
ghost use Rattle.clause_proof.specs.Proofs.{IsClauseProof, KeepsTruth};

/// If the clauses after a line can not all be true, neither can those before it; and a line keeps a state well formed.
pub fn line_law()
    ensures { (w : Meaning) (s : State) (l : Line) → IsFormedState s → KeepsTruth w s (after s l) }
{}

/// A clause proof shows its formula: it is true in every interpretation, at the given values of its names.
pub fn proof_law()
    ensures { (w : Meaning) (f : Form) (ks : List ℤ) (m : Literal) (ls : List Line) → IsClauseProof f ks m ls → FormTruth w f ks }
{}
