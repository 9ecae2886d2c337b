// What the answers of `find` mean, and where each comes, each the contract of a function with nothing to do.

ghost use Rattle.base_answers.specs.Answer.{Answer};
ghost use Rattle.form_typed.specs.Truth.{Meaning};
ghost use Rattle.job_find.specs.Causes.{IsFindCaused};
ghost use Rattle.job_find.specs.Found.{IsFoundIn};
ghost use Rattle.job_find.specs.Meaning.{FindMeans};
ghost use Rattle.std.specs.Prelude.{ℕ, Bool, List};

/// At status 0 the bytes read as a problem that holds at the values of the text, or that is valid as the text says; at status 1 as one
/// that is refuted, with a counterexample where it has predicates or functions. A proof that is printed is one of just that.
pub fn meaning_law()
    ensures { (w : Meaning) (proves : Bool) (budget : ℕ) (bytes : List ℕ) (a : Answer) → IsFoundIn proves budget bytes a → FindMeans w proves bytes a }
{}

/// The answer is that of the canonical run with the whole budget, and comes exactly where that says; or there is a clause proof of the
/// problem at some values, or one that it holds at none.
pub fn causes_law()
    ensures { (proves : Bool) (budget : ℕ) (bytes : List ℕ) (a : Answer) → IsFoundIn proves budget bytes a → IsFindCaused proves budget bytes a }
{}
