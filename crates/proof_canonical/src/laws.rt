// What the trees of runs that answer prove, each the contract of a function with nothing to do.

ghost use Rattle.clause_set.specs.declared.literal.Literal.{Literal};
ghost use Rattle.formula.specs.Form.{Form, IsFormOver};
ghost use Rattle.formula.specs.Reduced.{HasReducedTerms};
ghost use Rattle.proof_tree.specs.Proof.{Proof};
ghost use Rattle.proof_tree.specs.Proves.{Proves, proof_walk};
ghost use Rattle.proof_tree.specs.Views.{proof_of};
ghost use Rattle.proof_tree.specs.declared.node.Conclusion.TheVariants.{Nothing, Solution};
ghost use Rattle.proof_tree.specs.declared.node.Tree.{Tree};
ghost use Rattle.proof_tree.specs.declared.run.Verdict.TheVariants as verdict;
ghost use Rattle.base_budget.specs.Runs.{total};
ghost use Rattle.base_budget.specs.Trace.{At, Funds, at};
ghost use Rattle.base_budget.specs.declared.log.ElimLog.{ElimLog};
ghost use Rattle.search.specs.Outcomes.{EndsAs};
ghost use Rattle.base_budget.specs.Ending.{ending, ends_with};
ghost use Rattle.search.specs.Run.{canonical_run, invalid, valid};
ghost use Rattle.search.specs.declared.judge.Outcome.TheVariants.{Invalid, Valid};
ghost use Rattle.std.specs.Prelude.{◌≡◌, List, [], Ok, ℕ, ℤ};

/// The tree of a run that ends valid or invalid proves just that: the check of it accepts it, with the charges that the walk
/// over it makes.
pub fn proved_law()
    ensures valid { (f : Form) (n : ℕ) (g : Funds) (vs : List ℤ) (x : Proof) (b : At) → IsFormOver n f → HasReducedTerms f
        → ending (canonical_run f n g.budget) (at g []) ≡ ends_with (valid vs x) b
        → Proves f n x (Solution vs) (total (proof_walk f n x (Solution vs)).events) (verdict.Valid vs) }
    ensures invalid { (f : Form) (n : ℕ) (g : Funds) (log : ElimLog) (x : Proof) (b : At) → IsFormOver n f → HasReducedTerms f
        → ending (canonical_run f n g.budget) (at g []) ≡ ends_with (invalid log.entries x) b
        → Proves f n x (Nothing log) (total (proof_walk f n x (Nothing log)).events) verdict.Invalid }
{}

/// The tree of an outcome of a search, with its conclusion and its charges, proves the outcome.
pub fn outcome_law()
    ensures valid { (f : Form) (n : ℕ) (old new : Funds) (d : List (List Literal)) (vs : List ℤ) (t : Tree) → IsFormOver n f → HasReducedTerms f
        → EndsAs f n old (Ok (Valid d vs t)) new → Proves f n (proof_of t.root) t.conclusion t.charges (verdict.Valid vs) }
    ensures invalid { (f : Form) (n : ℕ) (old new : Funds) (d : List (List Literal)) (t : Tree) → IsFormOver n f → HasReducedTerms f
        → EndsAs f n old (Ok (Invalid d t)) new → Proves f n (proof_of t.root) t.conclusion t.charges verdict.Invalid }
{}
