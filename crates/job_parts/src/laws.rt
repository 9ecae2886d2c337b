// What a run within a part of its budget says of the whole, as the contract of a function with nothing to do.

ghost use Rattle.base_budget.specs.Ending.{ends_with};
ghost use Rattle.base_budget.specs.Trace.{Funds, Mark, at};
ghost use Rattle.job_parts.specs.Parts.{raised};
ghost use Rattle.model_runs.specs.Ends.{run_end};
ghost use Rattle.pri_typing.specs.declared.problem.Problem.{Problem};
ghost use Rattle.search.specs.Run.{RunAnswer};
ghost use Rattle.std.specs.Prelude.{◌≡◌, ◌≤◌, ℕ, List};

/// A run that ends within a limit ends the same with a greater budget, with as much spent.
pub fn raised_law()
    ensures { (limit budget : ℕ) (p : Problem) (v : RunAnswer) (g : Funds) (ms : List Mark) → limit ≤ budget → run_end limit p ≡ ends_with v (at g ms) → run_end budget p ≡ ends_with v (at (raised budget g) ms) }
{}
