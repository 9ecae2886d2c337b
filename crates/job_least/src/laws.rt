// What the answers of `least` are and mean, each the contract of a function with nothing to do.

ghost use Rattle.base_answers.specs.Answer.{Answer};
ghost use Rattle.job_least.specs.Causes.{LeastCauses};
ghost use Rattle.job_least.specs.Decides.{LeastDecides, IsLeastDecided};
ghost use Rattle.job_least.specs.Leasts.{IsLeastAnswer};
ghost use Rattle.job_least.specs.Meaning.{LeastAnswers};
ghost use Rattle.pri_typing.specs.declared.problem.Problem.{Problem};
ghost use Rattle.std.specs.Prelude.{◌≡◌, ℕ, List};
ghost use Rattle.form_typed.specs.Formula.{Expression};
ghost use Rattle.form_typed.specs.Truth.{Meaning};

/// A file and a term have at most one answer.
pub fn one_answer_law()
    ensures { (term : List ℕ) (budget : ℕ) (bytes : List ℕ) (a b : Answer) → IsLeastAnswer term budget bytes a → IsLeastAnswer term budget bytes b → a ≡ b }
{}

/// At status 0 the bytes read as a problem, and the number is the least value of the term over all values of the existential
/// constants at which the problem holds, the printed values being the best of those with that number; or there is no least
/// value, since the term has values below every integer. At status 1 the problem holds nowhere. All in whatever interpretation.
pub fn meaning_law()
    ensures { (w : Meaning) (term : List ℕ) (budget : ℕ) (bytes : List ℕ) (a : Answer) → IsLeastAnswer term budget bytes a → LeastAnswers w term bytes a }
{}

/// Each answer comes exactly where its row of the table of answers says.
pub fn causes_law()
    ensures { (term : List ℕ) (budget : ℕ) (bytes : List ℕ) (a : Answer) → IsLeastAnswer term budget bytes a → LeastCauses term budget bytes a }
{}

/// A problem and a term whose work comes to its end are told to hold nowhere, or to be without a least value, exactly where they are
/// so, in whatever interpretation; else they get their least value.
pub fn decided_law()
    ensures { (w : Meaning) (term : List ℕ) (budget : ℕ) (bytes : List ℕ) (a : Answer) (p : Problem) (x : Expression) → IsLeastAnswer term budget bytes a → IsLeastDecided term budget bytes p x → LeastDecides w p x a }
{}
