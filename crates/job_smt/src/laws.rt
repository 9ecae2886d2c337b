// What the answer to a script means and where it comes, each the contract of a function with nothing to do.

ghost use Rattle.base_answers.specs.Answer.{Answer};
ghost use Rattle.job_smt.specs.Answered.{IsSmtAnswer};
ghost use Rattle.job_smt.specs.Answers.{AreOneAnswer};
ghost use Rattle.job_smt.specs.Causes.{SmtCauses};
ghost use Rattle.job_smt.specs.Meaning.{Scripted};
ghost use Rattle.std.specs.Prelude.{◌≡◌, ◌⊎◌, ℕ, List};
ghost use Rattle.form_typed.specs.Truth.{Meaning};

/// An answer with status 0 or 2 has a line for each `check-sat`. Where it says `unsat`, nothing satisfies the assertions in force there,
/// in any interpretation; where it says `sat`, a finite interpretation and some integers do. With a model that `get-model` prints, each
/// assertion in force at the last check is true.
pub fn meaning_law()
    ensures { (w : Meaning) (budget : ℕ) (bytes : List ℕ) (a : Answer) → IsSmtAnswer budget bytes a → (a.status ≡ 0) ⊎ (a.status ≡ 2) → Scripted w bytes a.text }
{}

/// Two answers to a script are the same, or have a line for each check, and where those of a check differ, one is `unknown`.
pub fn one_answer_law()
    ensures { (budget : ℕ) (bytes : List ℕ) (a b : Answer) → IsSmtAnswer budget bytes a → IsSmtAnswer budget bytes b → AreOneAnswer a b }
{}

/// Each answer comes exactly where its row of the table of answers says.
pub fn causes_law()
    ensures { (budget : ℕ) (bytes : List ℕ) (a : Answer) → IsSmtAnswer budget bytes a → SmtCauses budget bytes a }
{}
