// What the answers of `solve` are and mean, each the contract of a function with nothing to do.

ghost use Rattle.base_answers.specs.Answer.{Answer};
ghost use Rattle.job_solve.specs.Causes.{SolveCauses, SolveDecides};
ghost use Rattle.job_solve.specs.Ground.{IsEnough};
ghost use Rattle.job_solve.specs.Headline.{Headline};
ghost use Rattle.job_solve.specs.Proved.{IsSolvedAs};
ghost use Rattle.job_solve.specs.Solved.{IsSolved};
ghost use Rattle.base_answers.specs.declared.form.ProofForm.{ProofForm};
ghost use Rattle.form_typed.specs.Truth.{Meaning};
ghost use Rattle.std.specs.Prelude.{◌≡◌, ℕ, List, Option};

/// A file has at most one answer, and at most one with its proof in a form.
pub fn one_answer_law()
    ensures plain { (budget : ℕ) (bytes : List ℕ) (a b : Answer) → IsSolved budget bytes a → IsSolved budget bytes b → a ≡ b }
    ensures proved { (asked : Option ProofForm) (budget : ℕ) (bytes : List ℕ) (a b : Answer) → IsSolvedAs asked budget bytes a → IsSolvedAs asked budget bytes b → a ≡ b }
{}

/// At VALID the bytes read as a problem that holds, in whatever interpretation, at each value of the existential constants
/// that satisfies the printed constraint, as the printed values do, and nowhere else where the problem has neither predicates
/// nor functions; each printed interpolant stands between what the sets before it assume and what those after it do, and of two
/// neighbours in a block the later one follows from the earlier one and the set between them. At INVALID they read as one that is
/// refuted.
pub fn headline_law()
    ensures { (w : Meaning) (budget : ℕ) (bytes : List ℕ) (a : Answer) → IsSolved budget bytes a → Headline w bytes a }
{}

/// Each answer comes exactly where its row of the table of answers says, and so does each line of an `\interpolant` block.
pub fn causes_law()
    ensures { (budget : ℕ) (bytes : List ℕ) (a : Answer) → IsSolved budget bytes a → SolveCauses budget bytes a }
{}

/// A problem without predicates and functions whose encoding fits is valid or invalid, unless the budget ends or a number
/// leaves the range. One in which every quantifier over an application is universal needs one round of the search: it is valid
/// or invalid, unless the budget ends, a number leaves the range or a branch is too long.
pub fn decided_law()
    ensures { (budget : ℕ) (bytes : List ℕ) (a : Answer) → IsSolved budget bytes a → SolveDecides budget bytes a }
{}

/// Seven steps a node of its encoding, and three more, are enough for a problem of numbers: without constants, quantifiers,
/// predicates and functions.
pub fn enough_law()
    ensures { (budget : ℕ) (bytes : List ℕ) → IsEnough budget bytes }
{}
