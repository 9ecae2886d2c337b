// What the answers of `check` mean, each the contract of a function with nothing to do.

ghost use Rattle.base_answers.specs.Answer.{Answer, IsAnswerStatus};
ghost use Rattle.job_check.specs.Causes.{CheckCauses};
ghost use Rattle.job_check.specs.Checked.{IsChecked};
ghost use Rattle.job_check.specs.Exactly.{IsDecided, IsOneAnswer};
ghost use Rattle.job_check.specs.Meaning.{CheckMeans};
ghost use Rattle.pri_typing.specs.declared.problem.Problem.{Problem};
ghost use Rattle.pri_problem.specs.Answers.{Poses};
ghost use Rattle.pri_problem.specs.Encoded.{Fits};
ghost use Rattle.std.specs.Prelude.{ℕ, List};
ghost use Rattle.form_typed.specs.Truth.{Meaning};

/// At status 0 the bytes read as a problem, whatever the bytes of the proof: at CHECKED VALID it holds, in whatever interpretation,
/// at each value of the existential constants that satisfies the printed constraint, as the printed values do; at CHECKED INVALID
/// it is refuted.
pub fn meaning_law()
    ensures { (w : Meaning) (proof bytes : List ℕ) (a : Answer) → IsChecked proof bytes a → CheckMeans w bytes a }
{}

/// A problem's file and a proof's file have at most one answer, but for cuts of the check of a clause proof.
pub fn one_answer_law()
    ensures { (proof bytes : List ℕ) (a b : Answer) → IsChecked proof bytes a → IsChecked proof bytes b → IsOneAnswer proof a b }
{}

/// Each answer comes exactly where its row of the table of answers says.
pub fn causes_law()
    ensures { (proof bytes : List ℕ) (a : Answer) → IsChecked proof bytes a → CheckCauses proof bytes a }
{}

/// A proof in a file is accepted, with status 0, exactly where the file holds a proof of the problem, and is refused elsewhere, with
/// status 4: of a problem whose encoding fits. The check of a clause proof may also be cut, by its charges or by a number out of range.
pub fn decided_law()
    ensures { (proof bytes : List ℕ) (a : Answer) (p : Problem) → IsChecked proof bytes a → Poses bytes p → Fits p → IsDecided p proof a }
{}

/// Each answer has a status of answers.
pub fn status_law()
    ensures { (proof bytes : List ℕ) (a : Answer) → IsChecked proof bytes a → IsAnswerStatus a.status }
{}
