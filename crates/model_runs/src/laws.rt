// What runs that end saturated say, each the contract of a function with nothing to do.

ghost use Rattle.clause_set.specs.Literals.{dnf_truth};
ghost use Rattle.form_encoding.specs.Problems.{problem_root};
ghost use Rattle.formula.specs.Form.{Form, IsFormOver, is_pure};
ghost use Rattle.formula.specs.Reduced.{HasReducedTerms};
ghost use Rattle.base_limits.specs.Limits.{branch_limit};
ghost use Rattle.model_trees.specs.Levels.{IsWithinLevels};
ghost use Rattle.model_trees.specs.Open.{IsOpenTree, IsSaturatedTree};
ghost use Rattle.pri_typing.specs.Problems.{IsRefuted, IsUniversal};
ghost use Rattle.pri_typing.specs.WellFormed.{IsWellFormed};
ghost use Rattle.pri_typing.specs.declared.problem.Problem.{Problem};
ghost use Rattle.proof_tree.specs.Proof.{Proof, given};
ghost use Rattle.proof_tree.specs.Proves.{start};
ghost use Rattle.base_budget.specs.Trace.{At, Funds, at};
ghost use Rattle.base_budget.specs.declared.log.Entry.{Entry};
ghost use Rattle.model_runs.specs.Refuting.{IsExplained};
ghost use Rattle.model_runs.specs.Somes.{HasNoGamma, HasPureSomes};
ghost use Rattle.search.specs.Building.{built};
ghost use Rattle.base_budget.specs.Ending.{ending, ends_with};
ghost use Rattle.search.specs.Run.{canonical_run, has_open_leaf, one_round, saturated};
ghost use Rattle.form_typed.specs.Sorts.{AreValuesOf};
ghost use Rattle.std.specs.Prelude.{◌≡◌, ◌≢◌, false, length, List, [], None, Some, ℕ, ℤ};

/// A run that ends saturated has an open tree, whose constraint is false everywhere, of a formula with an application. It has no more
/// levels than a branch may have nodes.
pub fn saturated_law()
    ensures tree { (f : Form) (n : ℕ) (g : Funds) (log : List Entry) (x : Proof) (b : At) → IsFormOver n f → HasReducedTerms f
        → ending (canonical_run f n g.budget) (at g []) ≡ ends_with (saturated log x) b → IsSaturatedTree f n x }
    ensures levels { (f : Form) (n : ℕ) (g : Funds) (log : List Entry) (x : Proof) (b : At) → IsFormOver n f → HasReducedTerms f
        → ending (canonical_run f n g.budget) (at g []) ≡ ends_with (saturated log x) b → IsWithinLevels branch_limit x }
{}

/// A problem on whose encoding a run ends saturated is refuted.
pub fn refuted_law()
    ensures { (p : Problem) (x : Proof) → IsWellFormed p → HasReducedTerms (problem_root p).value → IsSaturatedTree (problem_root p).value (length p.existentials) x → IsRefuted p }
{}

/// From values of the existential constants' types at which the constraint of an open tree of the encoding is false, the walk finds a
/// counterexample: values of the universal constants' types and a table at which the problem's formula is false.
pub fn explained_law()
    ensures { (p : Problem) (x : Proof) (e : List ℤ) → IsWellFormed p → HasReducedTerms (problem_root p).value → is_pure (problem_root p).value ≡ false
        → IsOpenTree (problem_root p).value (length p.existentials) x → length e ≡ length p.existentials → AreValuesOf p.existential_types e → dnf_truth (given x) e ≡ false → IsExplained p x e }
{}

/// The encoding of a universal problem has no `some` over an application. The canonical trees of such a formula have no gamma node, no
/// leaf of theirs has a `some` over an application, and so each round of a run is its last.
pub fn universal_law()
    ensures encoded { (p : Problem) → IsUniversal p → HasPureSomes (problem_root p).value }
    ensures gamma { (f : Form) (n limit left : ℕ) (x : Proof) → HasPureSomes f → (built limit left 0 (start f n)).value ≡ Some x → HasNoGamma x }
    ensures leaf { (f : Form) (n : ℕ) (x : Proof) → HasPureSomes f → has_open_leaf (start f n) x ≡ false }
    ensures round { (f : Form) (n k : ℕ) → HasPureSomes f → (one_round f n k).value ≢ None }
{}
