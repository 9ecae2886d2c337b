// What a check of a proof means, each the contract of a function with nothing to do.

ghost use Rattle.formula.specs.Form.{Form, IsFormOver};
ghost use Rattle.formula.specs.Reduced.{HasReducedTerms};
ghost use Rattle.proof_tree.specs.Proof.{Proof};
ghost use Rattle.proof_tree.specs.Proves.{Proves};
ghost use Rattle.proof_tree.specs.declared.node.Conclusion.{Conclusion};
ghost use Rattle.proof_tree.specs.declared.run.Verdict.{Verdict};
ghost use Rattle.std.specs.Prelude.{◌≡◌, ◌↔◌, ℕ};
ghost use Rattle.tree_checker.specs.Answering.{IsAccepted};
ghost use Rattle.tree_checker.specs.Faults.{accepted, checked};

/// A check accepts exactly the proofs: whatever the tree and whoever wrote its logs, the answer is a verdict where the tree and its
/// conclusion prove that within its charges and the range, and nowhere else.
pub fn accept_law()
    ensures { (f : Form) (n : ℕ) (x : Proof) (c : Conclusion) (charges : ℕ) (v : Verdict) → (checked f n x c charges ≡ accepted v) ↔ Proves f n x c charges v }
{}

/// What an accepted proof says of its formula, whoever wrote it: wherever the constraint of its root is true the formula is, in every
/// interpretation, and nowhere else where the formula is pure and the root a leaf; the values of a solution satisfy the constraint; and
/// a formula that is invalid is false everywhere.
pub fn checked_law()
    ensures { (f : Form) (n : ℕ) (x : Proof) (c : Conclusion) (charges : ℕ) (v : Verdict) → IsFormOver n f → HasReducedTerms f → checked f n x c charges ≡ accepted v → IsAccepted f n x v }
{}
