// One elimination within its share of the steps that are left.

ghost use Rattle.formula.specs.Form.{IsFormOver, is_pure};
ghost use Rattle.formula.specs.Sizes.{depth};
ghost use Rattle.formula.specs.Tree.{form};
ghost use Rattle.clause_root_laws.specs.Prepared.{attempted, share};
ghost use Rattle.std.specs.Prelude.{◌≡◌, ◌+◌, ◌-◌, ◌≤◌, ◌^◌, IfOk, true};

use super::clausal::dnf_form;
use base_budget::{ElimFault, Purse};
use formula::Core;
use linear_term::Memory;
use quant_elim::eliminate;
use std::alloc::Global;

/// The budget of one elimination, where this many steps are left.
fn share(left: u64) -> u64
    ensures { result ≡ share left }
{
    (left / 8).min(4294967295)
}

/// Takes what an elimination spent from the steps that are left.
fn spend(left: &mut u64, purse: &Purse)
    ensures { left.new ≡ left.old - purse.now.spent }
{
    *left = left.saturating_sub(purse.spent());
}

/// The formula f without its quantifiers, where its elimination ends within its share of the steps; else f.
pub(crate) fn attempt(alloc: Global, f: &Core, names: u32, left: &mut u64) -> Result<Core, Memory>
    requires room { names + depth (form f.now) ≤ 2 ^ 32 }
    requires over { IsFormOver names (form f.now) }
    requires pure { is_pure (form f.now) ≡ true }
    ensures { IfOk result (λ g. (form g, left.new) ≡ attempted names (form f.now) left.old) }
{
    let mut purse = Purse::new(share(*left));
    match eliminate(alloc, f, names, &mut purse) {
        Ok((d, _log)) => {
            spend(left, &purse);
            dnf_form(alloc, &d, names)
        }
        Err(ElimFault::Steps(_log)) => {
            spend(left, &purse);
            f.copy(alloc)
        }
        Err(ElimFault::Overflow(_log, _place)) => {
            spend(left, &purse);
            f.copy(alloc)
        }
        Err(ElimFault::Memory) => Err(Memory),
    }
}
