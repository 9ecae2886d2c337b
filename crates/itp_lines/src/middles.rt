// The runs on the obligations of a formula between two sides.

ghost use Rattle.std.specs.Prelude.{◌≡◌, ◌<◌, ◌≤◌, ◌^◌, IfOk, [], length};
ghost use Rattle.form_typed.specs.Truth.{Meaning};
ghost use Rattle.pri_typing.specs.Problems.{Holds, IsPlainlyValid};
ghost use Rattle.pri_typing.specs.WellFormed.{IsWellFormed};
ghost use Rattle.itp_sides.specs.Sides.{cut_of};
ghost use Rattle.pred_interpolant.specs.Middle as sides;
ghost use Rattle.pred_interpolant.specs.Middle.{IsFound, IsObligation, first, said, second};
ghost use Rattle.itp_lines.specs.Obligations.{Separates, IsProved};
ghost use Rattle.itp_lines.specs.Runs.{IsSound, MakesMiddle, Runs, fault_of};

use crate::proved::{Middle, Proved};
use base_budget::Purse;
use base_watch::Unwatched;
use function_encoding::Encoded;
use pred_interpolant::{MiddleFault, Obligations, obligations};
use pri_typing::Problem;
use proof_tree::Why;
use search::{Outcome, prove};
use std::alloc::Global;

/// Why a run has no answer, as a fault.
fn stopped(why: Why) -> MiddleFault
    ensures { result ≡ fault_of why }
{
    match why {
        Why::Steps => MiddleFault::Steps,
        Why::Overflow(place) => MiddleFault::Overflow(place),
        Why::Branch => MiddleFault::Branch,
    }
}

/// The proof that an encoded problem holds which holds everywhere, by the canonical run on what is left in the purse. Such a run ends
/// neither invalid nor saturated.
fn proved(alloc: Global, encoded: Encoded, purse: &mut Purse) -> Result<Proved, MiddleFault>
    requires sound { IsSound encoded }
    requires budget { purse.old.budget < 2 ^ 32 }
    ensures work { Runs encoded purse.old result purse.new }
    ensures proved { IfOk result IsProved }
{
    let mut nobody = Unwatched;
    match prove(alloc, &encoded.root, encoded.constants, purse, &mut nobody)? {
        Outcome::Valid { tree, .. } => Ok(Proved { encoded, tree }),
        Outcome::Unknown { why, .. } => Err(stopped(why)),
        Outcome::Invalid { .. } => unreachable!(),
        Outcome::Saturated { .. } => unreachable!(),
    }
}

/// What stands between the first `at` sets of the cut with this number and the others, as `obligations` says, with the proofs of both
/// obligations, for a problem that holds in every interpretation. In every interpretation it follows from what the first sets assume,
/// and contradicts what the others do.
///
/// Refused as `obligations` is; then as the canonical run on the first obligation is cut, and then as that on the second, both on this
/// purse.
pub fn middle(
    alloc: Global,
    p: &Problem,
    cut: u32,
    at: u32,
    purse: &mut Purse,
) -> Result<Middle, MiddleFault>
    requires formed { IsWellFormed p.now }
    requires alone { p.now.existentials ≡ [] }
    requires plain { ¬ (IsPlainlyValid p.now) }
    requires holds { (w : Meaning) → Holds w p.now [] }
    requires within { cut < length p.now.cuts }
    requires inside { at ≤ length (cut_of p.now cut).sets }
    requires budget { purse.old.budget < 2 ^ 32 }
    ensures work { MakesMiddle p.now cut at purse.old result purse.new }
    ensures found { IfOk result (λ m. IsFound p.now cut at m.formula) }
    ensures below { IfOk result (λ m. IsObligation p.now (sides.below p.now cut at m.formula) m.below.encoded) }
    ensures above { IfOk result (λ m. IsObligation p.now (sides.above p.now cut at m.formula) m.above.encoded) }
    ensures proved_below { IfOk result (λ m. IsProved m.below) }
    ensures proved_above { IfOk result (λ m. IsProved m.above) }
    ensures between { IfOk result (λ m. (w : Meaning) → Separates w p.now (first p.now cut at) (said p.now m.formula) (second p.now cut at)) }
{
    let made = obligations(alloc, p, cut, at, purse)?;
    let Obligations {
        formula,
        below,
        above,
    } = made;
    let below = proved(alloc, below, purse)?;
    let above = proved(alloc, above, purse)?;
    Ok(Middle {
        formula,
        below,
        above,
    })
}
