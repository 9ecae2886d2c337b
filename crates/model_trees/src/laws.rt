// What open trees say, each the contract of a function with nothing to do.

ghost use Rattle.clause_set.specs.Literals.{dnf_truth};
ghost use Rattle.linear_term.specs.Linear.{Linear, value_of};
ghost use Rattle.model_trees.specs.Open.{IsOpen};
ghost use Rattle.model_trees.specs.Refutes.{IsRefutedBy, RefutesSequent};
ghost use Rattle.model_trees.specs.Rows.{evaluated, table_at, truth_cmp, value_cmp};
ghost use Rattle.model_trees.specs.Walk.{Stop, walk};
ghost use Rattle.proof_tree.specs.Gives.{Gives};
ghost use Rattle.proof_tree.specs.Proof.{Proof, given};
ghost use Rattle.proof_tree.specs.Reduced.{IsReducedSequent};
ghost use Rattle.sequent.specs.Rules.{premises_at};
ghost use Rattle.sequent.specs.Sequent.{AreFalse, IsFormedSequent, Member, Sequent};
ghost use Rattle.std.specs.List.Sorted.{IsStrictlySortedBy};
ghost use Rattle.std.specs.List.{slice_get};
ghost use Rattle.std.specs.Prelude.{◌≡◌, ◌++◌, false, length, List, Some, ℕ, ℤ};
ghost use Rattle.form_typed.specs.Truth.{Meaning};

/// Each rule can be read backwards: an interpretation that makes a premise false, at values of the sequent's constants and further
/// ones of its own, makes the sequent false at the values of its constants.
pub fn back_law()
    ensures { (w : Meaning) (s : Sequent) (i : ℕ) (m : Member) (j : ℕ) (t : Sequent) (e r : List ℤ) → IsFormedSequent s → slice_get s.members i ≡ Some m
        → slice_get (premises_at s i (Some m)) j ≡ Some t → length e ≡ s.count → length (e ++ r) ≡ t.count → AreFalse w (e ++ r) t.members → AreFalse w e s.members }
{}

/// An open tree that gives its constraint is tight: wherever that is false, a finite table makes every member of the sequent
/// false.
pub fn tight_law()
    ensures { (s : Sequent) (x : Proof) (v : List ℤ) → IsFormedSequent s → IsReducedSequent s → Gives s x → IsOpen s x → length v ≡ s.count
        → dnf_truth (given x) v ≡ false → IsRefutedBy s v }
{}

/// The walk through such a tree, from values at which its constraint is false, ends at a leaf, with values that begin with
/// those; the table of the leaf makes each member of the leaf and of the sequent false there.
pub fn walk_law()
    ensures { (s : Sequent) (x : Proof) (v : List ℤ) → IsFormedSequent s → IsReducedSequent s → Gives s x → IsOpen s x → length v ≡ s.count
        → dnf_truth (given x) v ≡ false → RefutesSequent s v (walk s x v) }
{}

/// The rows of the table of a leaf are sorted by symbol and arguments, and no two have both in common. A term is evaluated to its
/// value.
pub fn rows_law()
    ensures truths { (stop : Stop) → IsStrictlySortedBy truth_cmp (table_at stop).value.truths }
    ensures values { (stop : Stop) → IsStrictlySortedBy value_cmp (table_at stop).value.values }
    ensures term { (e : List ℤ) (t : Linear) → (evaluated e t).value ≡ value_of t e }
{}
