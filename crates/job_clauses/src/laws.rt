// What a clause proof in a file shows of a problem, as the contract of a function with nothing to do.

ghost use Rattle.form_typed.specs.Truth.{Meaning};
ghost use Rattle.job_clauses.specs.Judged.{IsClauseFile};
ghost use Rattle.pri_typing.specs.Problems.{Holds};
ghost use Rattle.pri_typing.specs.WellFormed.{IsWellFormed};
ghost use Rattle.pri_typing.specs.declared.problem.Problem.{Problem};
ghost use Rattle.std.specs.Prelude.{◌≡◌, ℕ, List, []};

/// A problem without existential constants of which a file holds a clause proof holds, in whatever interpretation.
pub fn proof_law()
    ensures { (w : Meaning) (p : Problem) (file : List ℕ) → IsWellFormed p → p.existentials ≡ [] → IsClauseFile p file → Holds w p [] }
{}
