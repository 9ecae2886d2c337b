// What a clause proof at values shows of a problem, as the contract of a function with nothing to do.

ghost use Rattle.form_typed.specs.Truth.{Meaning};
ghost use Rattle.job_seeking.specs.Sought.{IsClauseFileAt};
ghost use Rattle.pri_typing.specs.Problems.{Holds};
ghost use Rattle.pri_typing.specs.WellFormed.{IsWellFormed};
ghost use Rattle.pri_typing.specs.declared.problem.Problem.{Problem};
ghost use Rattle.std.specs.Prelude.{ℕ, ℤ, List};

/// A problem of which a file holds a clause proof at values of its existential constants holds there, in whatever interpretation.
pub fn values_law()
    ensures { (w : Meaning) (p : Problem) (vs : List ℤ) (file : List ℕ) → IsWellFormed p → IsClauseFileAt p vs file → Holds w p vs }
{}
