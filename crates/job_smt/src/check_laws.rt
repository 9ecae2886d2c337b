// What the answers to checks mean, as the contract of a function with nothing to do.

ghost use Rattle.pri_typing.specs.Problems.{Holds, IsRefuted};
ghost use Rattle.pri_typing.specs.WellFormed.{IsWellFormed};
ghost use Rattle.pri_typing.specs.declared.problem.Problem.{Problem};
ghost use Rattle.job_smt.specs.Answers.{AreAlike, IsCheckAnswer};
ghost use Rattle.job_smt.specs.declared.checking.CheckAnswer.{CheckAnswer};
ghost use Rattle.job_smt.specs.declared.checking.CheckAnswer.TheVariants.{Unsat, Sat};
ghost use Rattle.std.specs.Prelude.{◌≡◌, [], ℕ};
ghost use Rattle.form_typed.specs.Truth.{Meaning};

/// Two answers to a check are the same, or one is Unknown. Where an answer is Unsat, the problem holds in every interpretation; where it is Sat, the problem is refuted by
/// a finite interpretation.
pub fn answer_law()
    ensures one { (budget : ℕ) (p : Problem) (a b : CheckAnswer) → IsWellFormed p → p.existentials ≡ [] → IsCheckAnswer budget p a → IsCheckAnswer budget p b → AreAlike a b }
    ensures unsat { (w : Meaning) (budget : ℕ) (p : Problem) → IsWellFormed p → p.existentials ≡ [] → IsCheckAnswer budget p Unsat → Holds w p [] }
    ensures sat { (budget : ℕ) (p : Problem) → IsWellFormed p → IsCheckAnswer budget p Sat → IsRefuted p }
{}
