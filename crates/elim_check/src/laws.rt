// What the answers about a log say, in words of the whole work. These functions have nothing to do.

ghost use Rattle.clause_set.specs.declared.literal.Literal.{Literal};
ghost use Rattle.elim_check.specs.Answers.{FitsFunds, GoesThrough, IsSameAnswer, UnlessLogMemory, paid_for};
ghost use Rattle.elim_check.specs.Checked.{Checked};
ghost use Rattle.elim_check.specs.declared.fault.LogFault.{LogFault};
ghost use Rattle.elim_check.specs.Reading.{reading};
ghost use Rattle.elim_laws.specs.Logs.{Reader, entries_of};
ghost use Rattle.elim_laws.specs.Whole.{eliminating};
ghost use Rattle.formula.specs.Form.{Form};
ghost use Rattle.base_budget.specs.Trace.{Funds};
ghost use Rattle.base_budget.specs.declared.log.Entry.{Entry};
ghost use Rattle.std.specs.Prelude.{◌≡◌, ◌≤◌, List, Ok, Result, ℕ};

/// A log is accepted exactly where its rules do the whole work, use it up, and stay within the budget and the range. There
/// is one answer, save for lack of memory: a log has one first fault.
pub fn answer_law()
    ensures accepted { (m : Reader (List (List Literal))) (log : List Entry) (old new : Funds) (d : List (List Literal)) → old.spent ≤ old.budget
        → Checked m log old (Ok d) new → GoesThrough m log old d }
    ensures exactly { (m : Reader (List (List Literal))) (log : List Entry) (old new : Funds) (d : List (List Literal)) (r : Result (List (List Literal)) LogFault) → old.spent ≤ old.budget
        → Checked m log old r new → GoesThrough m log old d → UnlessLogMemory r (r ≡ Ok d) }
    ensures once { (m : Reader (List (List Literal))) (log : List Entry) (old new end : Funds) (r s : Result (List (List Literal)) LogFault)
        → Checked m log old r new → Checked m log old s end → UnlessLogMemory r (UnlessLogMemory s (IsSameAnswer r s × (new ≡ end))) }
{}

/// The log that an elimination notes is accepted wherever the elimination fits into the budget and the range, with the same
/// result and the same charges.
pub fn run_law()
    ensures { (n : ℕ) (f : Form) (old new : Funds) (r : Result (List (List Literal)) LogFault) → FitsFunds (eliminating n f) old
        → Checked (reading n f) (entries_of (eliminating n f).events) old r new
        → UnlessLogMemory r ((r ≡ Ok (eliminating n f).value) × (new ≡ paid_for (eliminating n f) old)) }
{}
