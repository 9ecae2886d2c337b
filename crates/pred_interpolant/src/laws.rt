// What the answers of the calls mean, each the contract of a function with nothing to do.

ghost use Rattle.std.specs.Prelude.{◌≡◌, ◌↔◌, ℕ, Err};
ghost use Rattle.pri_typing.specs.declared.problem.Problem.{Problem};
ghost use Rattle.base_budget.specs.Trace.{Funds};
ghost use Rattle.itp_sides.specs.Sides.{case_of, cut_of, none};
ghost use Rattle.pred_interpolant.specs.Made.{MakesObligations};
ghost use Rattle.pred_interpolant.specs.declared.fault.MiddleFault.TheVariants.{Branch, Symbols};

/// Obligations are refused with Symbols exactly where each side has a symbol that the other has not, before any work; and never with
/// Branch.
#[tactic(auto, using(crate::proofs::Faults::symbols_where, crate::proofs::Faults::never_branch))]
pub fn fault_law()
    ensures symbols { (p : Problem) (cut at : ℕ) (old new : Funds) → MakesObligations p cut at old (Err Symbols) new ↔ ((case_of p (cut_of p cut) at ≡ none) × (new ≡ old)) }
    ensures never { (p : Problem) (cut at : ℕ) (old new : Funds) → MakesObligations p cut at old (Err Branch) new → ⊥ }
{}
