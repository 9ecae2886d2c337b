// What it means that bytes hold a proof.

ghost use Rattle.proof_tokens.specs.Spellings.{AreSpaced, spelled};
ghost use Rattle.proof_tokens.specs.declared.tokens.Token.{Token};
ghost use Rattle.proof_tree.specs.Proof.{Proof};
ghost use Rattle.proof_tree.specs.declared.node.Conclusion.{Conclusion};
ghost use Rattle.proof_file.specs.Body.{body};
ghost use Rattle.proof_file.specs.Refused.{RefusesProofFile};
ghost use Rattle.proof_file.specs.declared.refusal.ProofRefusal.{ProofRefusal};
ghost use Rattle.proof_file.specs.declared.refusal.ProofRefusal.TheVariants as r;
ghost use Rattle.std.specs.Prelude.{◌≡◌, ◌≢◌, List, ℕ};
ghost use Rattle.proof_grammar.specs.declared.text.Fault.{Fault};
ghost use Rattle.proof_grammar.specs.declared.text.Fault.TheVariants as f;
ghost use Rattle.proof_grammar.specs.Refusals.{RefusesText};
ghost use Rattle.proof_grammar.specs.Shaped.{IsTextOfProof};

/// Bytes hold at most one proof.
pub fn holds_one_law()
    ensures { (bytes : List ℕ) (n m : ℕ) (x y : Proof) (c d : Conclusion) → IsTextOfProof bytes n x c → IsTextOfProof bytes m y d → (n ≡ m) × (x ≡ y) × (c ≡ d) }
{}

/// Bytes that hold a proof, and files that do, are refused for lack of memory alone.
pub fn refused_law()
    ensures text { (bytes : List ℕ) (n : ℕ) (x : Proof) (c : Conclusion) (fault : Fault) → IsTextOfProof bytes n x c → RefusesText bytes fault → fault ≡ f.Memory }
    ensures file { (bytes : List ℕ) (n : ℕ) (x : Proof) (c : Conclusion) (refusal : ProofRefusal) → IsTextOfProof (body bytes) n x c → RefusesProofFile bytes refusal → refusal ≡ r.Memory }
{}

/// Bytes, and files, have at most one refusal besides running out of memory.
pub fn one_refusal_law()
    ensures text { (bytes : List ℕ) (a b : Fault) → RefusesText bytes a → RefusesText bytes b → a ≢ f.Memory → b ≢ f.Memory → a ≡ b }
    ensures file { (bytes : List ℕ) (a b : ProofRefusal) → RefusesProofFile bytes a → RefusesProofFile bytes b → a ≢ r.Memory → b ≢ r.Memory → a ≡ b }
{}

/// Tokens as texts of proofs have them, written one after another, are as a file of their own the part that holds the proof: none of
/// their lines is `proof:`.
#[tactic(auto, using(crate::proofs::Own::own_body))]
pub fn own_law()
    ensures { (xs : List Token) → AreSpaced xs → body (spelled xs) ≡ spelled xs }
{}
