// What the answers of `elim` are and mean, each the contract of a function with nothing to do.

ghost use Rattle.base_answers.specs.Answer.{Answer};
ghost use Rattle.job_elim.specs.Causes.{ElimCauses, ElimDecides};
ghost use Rattle.job_elim.specs.Eliminated.{IsEliminated};
ghost use Rattle.job_elim.specs.Meaning.{ElimMeans};
ghost use Rattle.form_typed.specs.Truth.{Meaning};
ghost use Rattle.std.specs.Prelude.{◌≡◌, ℕ, List};

/// A file has at most one answer.
pub fn one_answer_law()
    ensures { (budget : ℕ) (bytes : List ℕ) (a b : Answer) → IsEliminated budget bytes a → IsEliminated budget bytes b → a ≡ b }
{}

/// At status 0 the bytes read as a problem, and the printed constraint is true at values of its existential constants exactly
/// where it holds, in whatever interpretation.
pub fn meaning_law()
    ensures { (w : Meaning) (budget : ℕ) (bytes : List ℕ) (a : Answer) → IsEliminated budget bytes a → ElimMeans w bytes a }
{}

/// Each answer comes exactly where its row of the table of answers says.
pub fn causes_law()
    ensures { (budget : ℕ) (bytes : List ℕ) (a : Answer) → IsEliminated budget bytes a → ElimCauses budget bytes a }
{}

/// A problem without applications whose encoding fits gets its constraint, unless the budget ends or a number leaves the range.
pub fn decided_law()
    ensures { (budget : ℕ) (bytes : List ℕ) (a : Answer) → IsEliminated budget bytes a → ElimDecides budget bytes a }
{}
