// A formula without its quantifiers, and without the names that do not stay.

ghost use Rattle.base_limits.specs.Limits.{most_constants};
ghost use Rattle.std.specs.Prelude.{◌≡◌, ◌≤◌, ◌<◌, ◌+◌, ◌^◌, length};
ghost use Rattle.formula.specs.Sizes.{depth};
ghost use Rattle.formula.specs.Tree.{form};
ghost use Rattle.function_encoding.specs.Marks.{is_marked};
ghost use Rattle.interpolant.specs.Run as run;
ghost use Rattle.interpolant.specs.Run.{DoesElimination, others_out, projecting};

use base_budget::{ElimFault, Purse};
use clause_set::Dnf;
use formula::Core;
use quant_elim::{eliminate, exists_name};
use std::alloc::Global;

/// The name x out of d by "some value", unless it stays.
fn without(alloc: Global, stays: bool, x: u32, d: Dnf, purse: &mut Purse) -> Result<Dnf, ElimFault>
    requires { purse.old.budget < 2 ^ 32 }
    ensures { DoesElimination (run.without stays x d) purse.old result purse.new }
{
    if stays {
        return Ok(d);
    }
    let (out, _log) = exists_name(alloc, &d, x, purse)?;
    Ok(out)
}

/// The names without a mark out of d, the greatest first.
fn others_out(alloc: Global, marks: &[bool], d: Dnf, purse: &mut Purse) -> Result<Dnf, ElimFault>
    requires few { length marks.now ≤ most_constants }
    requires budget { purse.old.budget < 2 ^ 32 }
    ensures { DoesElimination (others_out (is_marked marks.now) (length marks.now) d) purse.old result purse.new }
{
    let mut left = d;
    let mut x = marks.len();
    while x > 0 {
        x -= 1;
        left = without(alloc, marks[x], x as u32, left, purse)?;
    }
    Ok(left)
}

/// The formula f over as many names as there are marks, without its quantifiers and without the names that have none set.
pub(crate) fn project(
    alloc: Global,
    f: &Core,
    marks: &[bool],
    purse: &mut Purse,
) -> Result<Dnf, ElimFault>
    requires few { length marks.now ≤ most_constants }
    requires room { length marks.now + depth (form f.now) ≤ 2 ^ 32 }
    requires budget { purse.old.budget < 2 ^ 32 }
    ensures { DoesElimination (projecting (is_marked marks.now) (length marks.now) (form f.now)) purse.old result purse.new }
{
    let (all, _log) = eliminate(alloc, f, marks.len() as u32, purse)?;
    others_out(alloc, marks, all, purse)
}
