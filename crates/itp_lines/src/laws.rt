// What is answered to `\interpolant` blocks and what it means, each the contract of a function with nothing to do.

ghost use Rattle.itp_lines.specs.Blocks.{AreBlockLines};
ghost use Rattle.itp_lines.specs.Causes.{AreBlocksCaused};
ghost use Rattle.itp_lines.specs.Meaning.{AreInterpolantLines};
ghost use Rattle.pri_typing.specs.Problems.{Holds, IsPure};
ghost use Rattle.pri_typing.specs.WellFormed.{IsWellFormed};
ghost use Rattle.pri_typing.specs.declared.problem.Problem.{Problem};
ghost use Rattle.pri_problem.specs.Reads.{AreSame};
ghost use Rattle.base_budget.specs.Trace.{Funds};
ghost use Rattle.std.specs.Prelude.{◌≡◌, ◌↔◌, ℕ, List, [], None};
ghost use Rattle.form_typed.specs.Truth.{Meaning};

/// The blocks of a problem have one list of lines, which is that of the same problem; there is one line less for each block than
/// it has sets, and each comes exactly where its row says.
pub fn lines_law()
    ensures one { (p : Problem) (old : Funds) (xs ys : List (List ℕ)) → AreBlockLines p p.cuts old xs → AreBlockLines p p.cuts old ys → xs ≡ ys }
    ensures same { (p q : Problem) (old : Funds) (xs : List (List ℕ)) → AreSame p q → AreBlockLines p p.cuts old xs → AreBlockLines q q.cuts old xs }
    ensures caused { (p : Problem) (old : Funds) (xs : List (List ℕ)) → AreBlockLines p p.cuts old xs → AreBlocksCaused p old xs }
{}

/// The lines of the blocks of a problem that holds print interpolants, or say that none is known, in whatever interpretation; and
/// those of a block follow from one another with the sets between them.
pub fn meaning_law()
    ensures { (w : Meaning) (p : Problem) (old : Funds) (xs : List (List ℕ)) → IsWellFormed p → ((p.first_application ≡ None) ↔ IsPure p) → Holds w p []
        → AreBlockLines p p.cuts old xs → AreInterpolantLines w p xs }
{}
