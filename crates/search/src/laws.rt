// What the canonical run is, each the contract of a function with nothing to do.

ghost use Rattle.std.specs.Prelude.{◌≡◌, ◌+◌, ◌*◌, ◌≤◌, ℕ, [], Some, true};
ghost use Rattle.base_budget.specs.Trace.{At, Funds, at};
ghost use Rattle.formula.specs.Form.{Form, IsFormOver, is_pure};
ghost use Rattle.formula.specs.Sizes.{size};
ghost use Rattle.formula.specs.Reduced.{HasReducedTerms};
ghost use Rattle.sequent.specs.Sequent.{Sequent};
ghost use Rattle.proof_tree.specs.Gives.{Gives};
ghost use Rattle.proof_tree.specs.Proof.{Proof};
ghost use Rattle.proof_tree.specs.Walk.{walked};
ghost use Rattle.search.specs.Building.{built};
ghost use Rattle.search.specs.Pure.{pure_run};
ghost use Rattle.search.specs.Closed.{IsClosed};
ghost use Rattle.search.specs.Meaning.{Tells};
ghost use Rattle.base_budget.specs.Ending.{ending, ends_with, out_of_steps};
ghost use Rattle.search.specs.Run.{RunAnswer, OneEnd, canonical_run};

/// The canonical tree of a sequent gives its constraint, and the walk that checks it makes the same charges, computes the same
/// numbers and leaves the same marks as building it does.
pub fn canonical_law()
    ensures gives { (limit left n : ℕ) (s : Sequent) (x : Proof) → (built limit left n s).value ≡ Some x → Gives s x }
    ensures events { (limit left n : ℕ) (s : Sequent) (x : Proof) → (built limit left n s).value ≡ Some x → (walked n s x).events ≡ (built limit left n s).events }
{}

/// The end of the canonical run does not depend on how many rounds are allowed, once the budget cannot pay for more.
pub fn one_end_law()
    ensures { OneEnd }
{}

/// On a formula without predicates and functions the canonical run is one round of one node.
pub fn pure_law()
    ensures { (f : Form) (n budget : ℕ) → is_pure f ≡ true → canonical_run f n budget ≡ pure_run f n }
{}

/// What the canonical run ends with says of the formula: values that satisfy the constraint of its tree best, where that
/// covers the formula, and is exact where the formula has no predicates and functions; or, of such a formula, that it is
/// false everywhere. A formula without predicates and functions has one of these two answers.
#[tactic(auto, using(crate::proofs::Telling::answer_tells))]
pub fn answer_law()
    ensures { (f : Form) (n : ℕ) (g : Funds) (a : RunAnswer) (b : At) → IsFormOver n f → HasReducedTerms f → ending (canonical_run f n g.budget) (at g []) ≡ ends_with a b → Tells f n a }
{}

/// Comparisons of numbers are decided with seven steps a node and three more.
#[tactic(auto, using(crate::proofs::Closed::closed_enough))]
pub fn closed_law()
    ensures { (f : Form) (g : Funds) (b : At) → IsClosed f → IsFormOver 0 f → g.spent + (7 * size f + 3) ≤ g.budget → ending (canonical_run f 0 g.budget) (at g []) ≡ out_of_steps b → ⊥ }
{}
