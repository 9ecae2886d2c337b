// What the trees of the canonical search are, each the contract of a function with nothing to do.

ghost use Rattle.clause_set.specs.declared.literal.Literal.{Literal};
ghost use Rattle.formula.specs.Form.{Form};
ghost use Rattle.base_limits.specs.Limits.{branch_limit, most_budget};
ghost use Rattle.formula.specs.Reduced.{HasReducedTerms};
ghost use Rattle.formula.specs.Searchable.{IsSearchable};
ghost use Rattle.proof_tree.specs.Proof.{Proof};
ghost use Rattle.proof_tree.specs.Proves.{proof_walk, start};
ghost use Rattle.proof_tree.specs.Views.{proof_of};
ghost use Rattle.proof_tree.specs.declared.node.Tree.{Tree};
ghost use Rattle.proof_tree.specs.declared.node.Conclusion.TheVariants.{Nothing, Solution};
ghost use Rattle.proof_printer.specs.Typed.{IsTypedProof};
ghost use Rattle.base_budget.specs.Runs.{total};
ghost use Rattle.base_budget.specs.Trace.{At, Funds, at};
ghost use Rattle.base_budget.specs.declared.log.ElimLog.{ElimLog};
ghost use Rattle.search.specs.Building.{built};
ghost use Rattle.search.specs.Outcomes.{EndsAs};
ghost use Rattle.search.specs.declared.judge.Outcome.TheVariants.{Invalid, Valid};
ghost use Rattle.base_budget.specs.Ending.{ending, ends_with};
ghost use Rattle.search.specs.Run.{canonical_run, invalid, valid};
ghost use Rattle.std.specs.Prelude.{◌≡◌, ◌-◌, ◌≤◌, List, [], Ok, ℕ, ℤ, Some};
ghost use Rattle.proof_grammar.specs.Owed.{Shallow};
ghost use Rattle.proof_grammar.specs.Shaped.{IsWritable, IsShapedNode};

/// The canonical tree of a formula within the bounds of a search is one that a text can hold.
#[tactic(auto, using(crate::proofs::Built::tree_shaped))]
pub fn tree_law()
    ensures { (f : Form) (n k : ℕ) (x : Proof) → IsSearchable f n → HasReducedTerms f → (built k branch_limit 0 (start f n)).value ≡ Some x → IsTypedProof x
        → IsShapedNode Shallow 1 x }
{}

/// What a canonical run ends with is, with the charges of its walk, a proof that a text can hold.
pub fn shaped_law()
    ensures valid { (f : Form) (n : ℕ) (g : Funds) (vs : List ℤ) (x : Proof) (b : At) → IsSearchable f n → HasReducedTerms f → g.budget - g.spent ≤ most_budget
        → ending (canonical_run f n g.budget) (at g []) ≡ ends_with (valid vs x) b → IsTypedProof x
        → IsWritable (total (proof_walk f n x (Solution vs)).events) x (Solution vs) }
    ensures invalid { (f : Form) (n : ℕ) (g : Funds) (log : ElimLog) (x : Proof) (b : At) → IsSearchable f n → HasReducedTerms f → g.budget - g.spent ≤ most_budget
        → ending (canonical_run f n g.budget) (at g []) ≡ ends_with (invalid log.entries x) b → IsTypedProof x
        → IsWritable (total (proof_walk f n x (Nothing log)).events) x (Nothing log) }
{}

/// The tree of an outcome of a search is, with its charges and its conclusion, a proof that a text can hold.
pub fn shaped_outcome_law()
    ensures valid { (f : Form) (n : ℕ) (old new : Funds) (d : List (List Literal)) (vs : List ℤ) (t : Tree) → IsSearchable f n → HasReducedTerms f
        → old.budget - old.spent ≤ most_budget → EndsAs f n old (Ok (Valid d vs t)) new → IsTypedProof (proof_of t.root) → IsWritable t.charges (proof_of t.root) t.conclusion }
    ensures invalid { (f : Form) (n : ℕ) (old new : Funds) (d : List (List Literal)) (t : Tree) → IsSearchable f n → HasReducedTerms f
        → old.budget - old.spent ≤ most_budget → EndsAs f n old (Ok (Invalid d t)) new → IsTypedProof (proof_of t.root) → IsWritable t.charges (proof_of t.root) t.conclusion }
{}
