// What the answers of `solve` are and mean, each the contract of a function with nothing to do.

ghost use Rattle.base_answers.specs.Answer.{Answer};
ghost use Rattle.base_answers.specs.declared.form.ProofForm.{ProofForm};
ghost use Rattle.form_typed.specs.Truth.{Meaning};
ghost use Rattle.job_decide.specs.Causes.{IsCausedAs};
ghost use Rattle.job_decide.specs.Decided.{IsDecidedAs};
ghost use Rattle.job_decide.specs.Meaning.{Means};
ghost use Rattle.job_solve.specs.Proved.{IsSolvedAs};
ghost use Rattle.std.specs.Prelude.{ℕ, Bool, true, false, List, Option};

/// With the calculus alone, and where no values are to be shown, the answer is that of the canonical run.
pub fn calculus_law()
    ensures { (asked : Option ProofForm) (budget : ℕ) (bytes : List ℕ) (a : Answer) → IsDecidedAs true false asked budget bytes a → IsSolvedAs asked budget bytes a }
{}

/// At VALID the bytes read as a problem that holds, in whatever interpretation, as the text says; at INVALID as one that is refuted.
/// A proof that is printed is one of just that, by a tree or by clauses.
pub fn meaning_law()
    ensures { (w : Meaning) (calculus shows : Bool) (asked : Option ProofForm) (budget : ℕ) (bytes : List ℕ) (a : Answer) → IsDecidedAs calculus shows asked budget bytes a → Means w shows asked bytes a }
{}

/// The answer is that of the canonical run with the whole budget, and comes exactly where that says, with the values that are shown; or the
/// canonical run leaves the problem open, and the answer is valid, by a clause proof, or invalid, by a finite model.
pub fn causes_law()
    ensures { (calculus shows : Bool) (asked : Option ProofForm) (budget : ℕ) (bytes : List ℕ) (a : Answer) → IsDecidedAs calculus shows asked budget bytes a → IsCausedAs calculus shows asked budget bytes a }
{}
