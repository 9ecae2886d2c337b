// What is read of a file's bytes, each the contract of a function with nothing to do.

ghost use Rattle.pri_problem.specs.Answers.{Poses};
ghost use Rattle.pri_problem.specs.Reads.{AreSame, FirstRefusal, Reads, Refusal};
ghost use Rattle.pri_problem.specs.Refusals.{IsNamed, refusal_name};
ghost use Rattle.pri_problem.specs.Cuttable.{IsCuttable};
ghost use Rattle.form_encoding.specs.Problems.{problem_root};
ghost use Rattle.formula.specs.Reduced.{HasReducedTerms};
ghost use Rattle.pri_typing.specs.Problems.{IsPure};
ghost use Rattle.pri_typing.specs.WellFormed.{HasDistinctNames, HasIdentifiers, IsWellFormed};
ghost use Rattle.pri_typing.specs.declared.problem.Problem.{Problem};
ghost use Rattle.std.specs.Prelude.{◌≡◌, ◌↔◌, ◌⊎◌, ℕ, List, None};

/// Bytes pose a problem or have a first refusal, and not both; and of each at most one.
pub fn one_problem_law()
    ensures problem { (bytes : List ℕ) (p q : Problem) → Reads bytes p → Reads bytes q → AreSame p q }
    ensures refusal { (bytes : List ℕ) (r s : Refusal) → FirstRefusal bytes r → FirstRefusal bytes s → r ≡ s }
    ensures either { (bytes : List ℕ) (p : Problem) (r : Refusal) → Reads bytes p → FirstRefusal bytes r → ⊥ }
    ensures some { (bytes : List ℕ) → ((p : Problem) × Reads bytes p) ⊎ ((r : Refusal) × FirstRefusal bytes r) }
{}

/// The problem that bytes pose is well formed, and its symbols have different identifiers as names; it has a first application
/// exactly where it is not pure.
pub fn problem_law()
    ensures well_formed { (bytes : List ℕ) (p : Problem) → Reads bytes p → IsWellFormed p }
    ensures distinct { (bytes : List ℕ) (p : Problem) → Reads bytes p → HasDistinctNames p }
    ensures identifiers { (bytes : List ℕ) (p : Problem) → Reads bytes p → HasIdentifiers p }
    ensures pure { (bytes : List ℕ) (p : Problem) → Reads bytes p → (p.first_application ≡ None) ↔ IsPure p }
{}

/// A problem that bytes pose has cuts only where it has no existential constants.
pub fn cuts_law()
    ensures { (bytes : List ℕ) (p : Problem) → Poses bytes p → IsCuttable p }
{}

/// Refusals with one name are one: the name has the cause and the place.
#[tactic(auto, using(crate::proofs::Naming::names_apart))]
pub fn names_law()
    ensures { (r q : Refusal) → IsNamed r → IsNamed q → refusal_name r ≡ refusal_name q → r ≡ q }
{}

/// The terms of an encoded problem are reduced.
#[tactic(auto, using(crate::proofs::Reduced::problem_reduced))]
pub fn encoding_law()
    ensures { (p : Problem) → HasReducedTerms (problem_root p).value }
{}
