// Terms and numbers that a rule computes: each is in the range, or the call names one that is not.

ghost use Rattle.base_budget.specs.Trace.{combining};
ghost use Rattle.linear_term.specs.Range.{InRange};
ghost use Rattle.base_budget.specs.Trace.{compute};
ghost use Rattle.base_budget.specs.Work.{Worked};
ghost use Rattle.std.specs.Prelude.{◌≡◌, true, OnOk};
ghost use Rattle.linear_term.specs.Range.{all_stay};

use base_budget::StepFault;
use linear_term::{Place, Term};

/// The term m·s + n·t, for m and n in the range.
#[tactic(auto, using(base_budget::proofs::Charging::combinations))]
pub fn combining(m: i128, s: &Term, n: i128, t: &Term) -> Result<Term, StepFault>
    requires m_in_range { InRange m }
    requires n_in_range { InRange n }
    ensures { Worked (combining m s.now n t.now) result }
{
    Ok(Term::combine(m, s, n, t)?)
}

/// Finds that all these numbers are in the range, or one that is not.
#[tactic(auto, using(crate::proofs::Works::computations))]
pub fn computing(ps: &[Place]) -> Result<(), StepFault>
    ensures work { Worked (compute ps.now) result }
    ensures stay { OnOk result (all_stay ps.now ≡ true) }
{
    for p in ps {
        p.value()?;
    }
    Ok(())
}
