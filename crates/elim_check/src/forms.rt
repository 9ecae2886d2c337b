// The elimination of all quantifiers of a formula, by the entries of a log.

ghost use Rattle.clause_set.specs.Dnfs.{top};
ghost use Rattle.elim_check.specs.Reading.{ReadAt, reading};
ghost use Rattle.elim_laws.specs.Logs.{all_by_log, any_by_log};
ghost use Rattle.formula.specs.Form.{existential, universal};
ghost use Rattle.formula.specs.Sizes.{depth, depths};
ghost use Rattle.formula.specs.Tree.{form, forms_of};
ghost use Rattle.std.specs.Prelude.{◌+◌, ◌≤◌, ◌^◌, [], length};

use super::fault::Stop;
use super::names::some_value;
use base_budget::{Entry, Purse};
use clause_set::{Dnf, Literal, and, not, or_into};
use elim_laws::{of_literal, of_unequal};
use formula::{Core, dual, size};
use std::alloc::Global;

/// The disjunction of the formula f over `names`, by the entries from the place on.
#[cycle(forms)]
pub(crate) fn form_by_log(
    alloc: Global,
    f: &Core,
    names: u32,
    log: &[Entry],
    place: &mut usize,
    purse: &mut Purse,
) -> Result<Dnf, Stop>
    requires room { names + depth (form f.now) ≤ 2 ^ 32 }
    requires within { place.old ≤ length log.now }
    ensures { ReadAt (reading names (form f.now)) log.now place.old purse.old result place.new purse.new }
{
    match f {
        Core::Eq(t) => Ok(of_literal(alloc, Literal::Eq(t.copy()?), purse)?),
        Core::Neq(t) => Ok(of_unequal(alloc, t, purse)?),
        Core::Geq(t) => Ok(of_literal(alloc, Literal::Geq(t.copy()?), purse)?),
        Core::Pred(_, _) => Ok(Dnf::bottom(alloc)),
        Core::NotPred(_, _) => Ok(Dnf::bottom(alloc)),
        Core::NotFun(_, _, _) => Ok(Dnf::bottom(alloc)),
        Core::And(fs) => conjunction_by_log(alloc, fs.as_slice(), names, log, place, purse),
        Core::Or(fs) => disjunction_by_log(alloc, fs.as_slice(), names, log, place, purse),
        Core::Forall(g) => universal_by_log(alloc, g.get(), names, log, place, purse),
        Core::Exists(g) => existential_by_log(alloc, g.get(), names, log, place, purse),
    }
}

/// The conjunction of the members.
#[cycle(forms)]
fn conjunction_by_log(
    alloc: Global,
    members: &[Core],
    names: u32,
    log: &[Entry],
    place: &mut usize,
    purse: &mut Purse,
) -> Result<Dnf, Stop>
    requires room { names + depths (forms_of members.now) ≤ 2 ^ 32 }
    requires within { place.old ≤ length log.now }
    ensures { ReadAt (all_by_log (reading names) (forms_of members.now) top) log.now place.old purse.old result place.new purse.new }
{
    let mut all = Dnf::top(alloc)?;
    for f in members {
        let member = form_by_log(alloc, f, names, log, place, purse)?;
        all = and(alloc, &all, &member, purse)?;
    }
    Ok(all)
}

/// The disjunction of the members.
#[cycle(forms)]
fn disjunction_by_log(
    alloc: Global,
    members: &[Core],
    names: u32,
    log: &[Entry],
    place: &mut usize,
    purse: &mut Purse,
) -> Result<Dnf, Stop>
    requires room { names + depths (forms_of members.now) ≤ 2 ^ 32 }
    requires within { place.old ≤ length log.now }
    ensures { ReadAt (any_by_log (reading names) (forms_of members.now) []) log.now place.old purse.old result place.new purse.new }
{
    let mut any = Dnf::bottom(alloc);
    for f in members {
        let member = form_by_log(alloc, f, names, log, place, purse)?;
        any = or_into(alloc, any, member, purse)?;
    }
    Ok(any)
}

/// The disjunction of "some value of the name `names` makes the body true".
#[cycle(forms)]
fn existential_by_log(
    alloc: Global,
    body: &Core,
    names: u32,
    log: &[Entry],
    place: &mut usize,
    purse: &mut Purse,
) -> Result<Dnf, Stop>
    requires room { names + depth (existential (form body.now)) ≤ 2 ^ 32 }
    requires within { place.old ≤ length log.now }
    ensures { ReadAt (reading names (existential (form body.now))) log.now place.old purse.old result place.new purse.new }
{
    let d = form_by_log(alloc, body, names + 1, log, place, purse)?;
    some_value(alloc, d, names, log, place, purse)
}

/// The disjunction of "every value of the name `names` makes the body true": no value makes its negation true.
#[cycle(forms)]
fn universal_by_log(
    alloc: Global,
    body: &Core,
    names: u32,
    log: &[Entry],
    place: &mut usize,
    purse: &mut Purse,
) -> Result<Dnf, Stop>
    requires room { names + depth (universal (form body.now)) ≤ 2 ^ 32 }
    requires within { place.old ≤ length log.now }
    ensures { ReadAt (reading names (universal (form body.now))) log.now place.old purse.old result place.new purse.new }
{
    purse.step(size(body))?;
    let negation = dual(alloc, body)?;
    let fails = form_by_log(alloc, &negation, names + 1, log, place, purse)?;
    let some = some_value(alloc, fails, names, log, place, purse)?;
    Ok(not(alloc, &some, purse)?)
}
