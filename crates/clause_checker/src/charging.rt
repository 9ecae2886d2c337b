// What a call pays, and numbers that are to be coefficients.

ghost use Rattle.std.specs.Prelude.{◌≡◌, ◌+◌, ◌<◌, IfErr, IfOk, OnErr, OnOk};
ghost use Rattle.clause_checker.specs.Answers.{IsTermCut};
ghost use Rattle.clause_checker.specs.declared.fault.Fault.TheVariants.{Steps};
ghost use Rattle.linear_term.specs.Range.{InRange};

use crate::fault::Fault;
use base_budget::Purse;
use linear_term::{Place, in_range};

/// Spends n more steps, or answers Steps where that passes the budget; then nothing is spent.
pub(crate) fn pay(purse: &mut Purse, n: u64) -> Result<(), Fault>
    ensures ok { OnOk result (purse.new ≡ record purse.old { spent = purse.old.spent + n }) }
    ensures passes { OnErr result (purse.old.budget < purse.old.spent + n) }
    ensures err { IfErr result (λ e. e ≡ Steps) }
{
    if purse.charge(n).is_ok() {
        return Ok(());
    }
    Err(Fault::Steps)
}

/// The number, which is to be a coefficient. The least number of 128 bits is none: it is the sum of the least coefficient and -1.
#[tactic(auto, unfolding(linear_term::specs::Range::stays))]
pub(crate) fn coefficient(k: i128) -> Result<i128, Fault>
    ensures ok { IfOk result (λ n. n ≡ k) }
    ensures range { IfOk result InRange }
    ensures err { IfErr result IsTermCut }
{
    if in_range(k) {
        return Ok(k);
    }
    Err(Fault::Overflow(Place {
        m: 1,
        a: -i128::MAX,
        n: 1,
        b: -1,
    }))
}
