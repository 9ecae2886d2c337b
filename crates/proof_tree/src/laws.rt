// What proof trees say, each the contract of a function with nothing to do.

ghost use Rattle.std.specs.Prelude.{◌≡◌, ◌↔◌, ℕ, ℤ, List, length, Some, true, false};
ghost use Rattle.std.specs.List.{AllByRecursion};
ghost use Rattle.form_typed.specs.Truth.{Meaning};
ghost use Rattle.base_budget.specs.declared.log.Entry.{Entry};
ghost use Rattle.clause_set.specs.declared.literal.Literal.{Literal};
ghost use Rattle.clause_set.specs.Literals.{dnf_truth};
ghost use Rattle.formula.specs.Form.{Form, FormTruth, IsFormOver, is_pure};
ghost use Rattle.formula.specs.Reduced.{HasReducedTerms};
ghost use Rattle.sequent.specs.declared.member.Pick.{Pick};
ghost use Rattle.sequent.specs.Covers.{Covers, IsTight};
ghost use Rattle.sequent.specs.Rules.{place, premises_of};
ghost use Rattle.sequent.specs.Sequent.{Sequent, IsFormedSequent};
ghost use Rattle.proof_tree.specs.declared.node.Conclusion.{Conclusion};
ghost use Rattle.proof_tree.specs.declared.run.Verdict.TheVariants.{Valid, Invalid};
ghost use Rattle.proof_tree.specs.Gives.{Gives, truths};
ghost use Rattle.proof_tree.specs.Proof.{Proof, Proofs, node, given, all_given};
ghost use Rattle.proof_tree.specs.Proves.{Proves, is_root_rule, rule_of, start};
ghost use Rattle.proof_tree.specs.Reduced.{IsReducedSequent};
ghost use Rattle.proof_tree.specs.Says.{IsConstraint};
ghost use Rattle.proof_tree.specs.Tight.{IsSaturated};
ghost use Rattle.proof_tree.specs.Walk.{walked};
ghost use Rattle.solve_laws.specs.Solutions.{IsGiven};

/// The premises of a sequent whose terms are reduced have such terms.
pub fn reduced_law()
    ensures { (s : Sequent) (p : Pick) → IsReducedSequent s → AllByRecursion IsReducedSequent (premises_of s p) }
{}

/// A node that gives its constraint covers its sequent, in every interpretation, whatever the tree: also one that no search
/// would build, with logs that no elimination would write. Its constraint is in form, and says of the premises' constraints
/// what the rule wants, both ways.
pub fn node_law()
    ensures covers { (w : Meaning) (s : Sequent) (n : Proof) → IsFormedSequent s → IsReducedSequent s → Gives s n → Covers w (dnf_truth (given n)) s }
    ensures constraint { (s : Sequent) (p : Pick) (ns : Proofs) (log : List Entry) (d : List (List Literal)) → IsReducedSequent s → Gives s (node p ns log d)
        → IsConstraint s (place p) (truths (all_given ns)) d }
{}

/// Where each leaf that is closed is saturated, the tree is tight: wherever its constraint is false, an interpretation makes
/// every member of its sequent false.
pub fn tight_law()
    ensures { (s : Sequent) (n : Proof) → IsFormedSequent s → IsReducedSequent s → Gives s n → IsSaturated s n → IsTight (dnf_truth (given n)) s }
{}

/// The walk over a tree, which a checker makes, ends with a constraint exactly where the tree gives that constraint.
pub fn walk_law()
    ensures { (n : ℕ) (s : Sequent) (x : Proof) (d : List (List Literal)) → ((walked n s x).value ≡ Some d) ↔ (Gives s x × (given x ≡ d)) }
{}

/// A tree for a formula over n names that gives its constraint covers it: wherever the constraint is true the formula is, in
/// every interpretation. Where the formula is pure and the root is a leaf, it is true nowhere else.
pub fn root_law()
    ensures covers { (f : Form) (n : ℕ) (x : Proof) → IsFormOver n f → HasReducedTerms f → Gives (start f n) x
        → (w : Meaning) (e : List ℤ) → length e ≡ n → dnf_truth (given x) e ≡ true → FormTruth w f e }
    ensures exact { (f : Form) (n : ℕ) (x : Proof) → IsFormOver n f → HasReducedTerms f → is_pure f ≡ true → is_root_rule (rule_of x) ≡ true → Gives (start f n) x
        → (w : Meaning) (e : List ℤ) → length e ≡ n → dnf_truth (given x) e ≡ false → ¬ (FormTruth w f e) }
{}

/// A proof of Valid has as many values as there are names, and they satisfy the constraint. A proof of Invalid is of a
/// formula that is false at all integers, in every interpretation.
pub fn proof_law()
    ensures valid { (f : Form) (n : ℕ) (x : Proof) (c : Conclusion) (charges : ℕ) (vs : List ℤ) → HasReducedTerms f → Proves f n x c charges (Valid vs)
        → (length vs ≡ n) × (dnf_truth (given x) vs ≡ true) }
    ensures invalid { (f : Form) (n : ℕ) (x : Proof) (c : Conclusion) (charges : ℕ) → IsFormOver n f → HasReducedTerms f → Proves f n x c charges Invalid
        → (w : Meaning) (e : List ℤ) → length e ≡ n → ¬ (FormTruth w f e) }
{}

/// The constraint of a tree that gives it is in form, and speaks of the constants of its sequent alone: also of a tree that no
/// search would build, with logs that no elimination would write.
pub fn names_law()
    ensures { (s : Sequent) (x : Proof) → IsFormedSequent s → IsReducedSequent s → Gives s x → IsGiven s.count (given x) }
{}
