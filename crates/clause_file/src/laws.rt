// What the verdicts on a file mean, each law the contract of a function with nothing to do.

ghost use Rattle.clause_file.specs.Answers.{is_clause_text};
ghost use Rattle.clause_file.specs.Verdicts.{HoldsClauseProof, IsVerdict, Verdict};
ghost use Rattle.form_typed.specs.Truth.{Meaning};
ghost use Rattle.formula.specs.Form.{Form, FormTruth, IsFormOver};
ghost use Rattle.formula.specs.Reduced.{HasReducedTerms};
ghost use Rattle.proof_file.specs.Body.{body};
ghost use Rattle.proof_grammar.specs.Shaped.{IsTextOfProof};
ghost use Rattle.proof_tree.specs.Proof.{Proof};
ghost use Rattle.proof_tree.specs.declared.node.Conclusion.{Conclusion};
ghost use Rattle.std.specs.Prelude.{◌≡◌, ℕ, ℤ, List, false, true};

/// A formula whose clause proof stands in a file is true at the values of the proof, whatever its predicates and functions are.
pub fn meaning_law()
    ensures { (w : Meaning) (f : Form) (n : ℕ) (file : List ℕ) (vs : List ℤ) → IsFormOver n f → HasReducedTerms f → HoldsClauseProof f n file vs → FormTruth w f vs }
{}

/// A file has at most one verdict: a proof at these values, wrong at this line, or refused at this place.
pub fn one_verdict_law()
    ensures { (f : Form) (n : ℕ) (file : List ℕ) (a b : Verdict) → IsVerdict f n file a → IsVerdict f n file b → a ≡ b }
{}

/// A file has a verdict. So a check accepts exactly the proofs, and refuses all else where it is wrong first, unless it is cut.
pub fn some_verdict_law()
    ensures { (f : Form) (n : ℕ) (file : List ℕ) → (v : Verdict) × IsVerdict f n file v }
{}

/// A file that holds a clause proof is one of the third format, and a file that holds a proof tree is not.
pub fn format_law()
    ensures clauses { (f : Form) (n : ℕ) (file : List ℕ) (vs : List ℤ) → HoldsClauseProof f n file vs → is_clause_text file ≡ true }
    ensures trees { (file : List ℕ) (charges : ℕ) (x : Proof) (c : Conclusion) → IsTextOfProof (body file) charges x c → is_clause_text file ≡ false }
{}
