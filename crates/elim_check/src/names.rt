// Names out of a disjunction, by the entries of a log.

ghost use Rattle.elim_check.specs.Reading.{ReadAt};
ghost use Rattle.elim_laws.specs.Logs.{every_by_log, name_by_log, names_by_log};
ghost use Rattle.std.specs.Prelude.{◌≡◌, ◌≤◌, IfOk, length};

use super::fault::Stop;
use super::replay::replay;
use base_budget::{Entry, Purse};
use clause_set::{Dnf, not};
use std::alloc::Global;

/// The disjunction of "some value of x makes d true", by the entries from the place on.
pub(crate) fn some_value(
    alloc: Global,
    d: Dnf,
    x: u32,
    log: &[Entry],
    place: &mut usize,
    purse: &mut Purse,
) -> Result<Dnf, Stop>
    requires { place.old ≤ length log.now }
    ensures { ReadAt (name_by_log x d) log.now place.old purse.old result place.new purse.new }
{
    let out = replay(alloc, d.into_clauses(), x, log, place, purse)?;
    Ok(Dnf::tidy(alloc, out, purse)?)
}

/// The same, where d stays.
pub(crate) fn some_value_kept(
    alloc: Global,
    d: &Dnf,
    x: u32,
    log: &[Entry],
    place: &mut usize,
    purse: &mut Purse,
) -> Result<Dnf, Stop>
    requires { place.old ≤ length log.now }
    ensures { ReadAt (name_by_log x d.now) log.now place.old purse.old result place.new purse.new }
{
    let copy = d.copy(alloc)?;
    some_value(alloc, copy, x, log, place, purse)
}

/// The disjunction of "every value of x makes d true": no value makes its negation true.
pub(crate) fn every_value(
    alloc: Global,
    d: &Dnf,
    x: u32,
    log: &[Entry],
    place: &mut usize,
    purse: &mut Purse,
) -> Result<Dnf, Stop>
    requires { place.old ≤ length log.now }
    ensures { ReadAt (every_by_log x d.now) log.now place.old purse.old result place.new purse.new }
{
    let fails = not(alloc, d, purse)?;
    let some = some_value(alloc, fails, x, log, place, purse)?;
    Ok(not(alloc, &some, purse)?)
}

/// The disjunction of "some values of the names below `names` make d true", the greatest name first.
pub(crate) fn some_values(
    alloc: Global,
    d: &Dnf,
    names: u32,
    log: &[Entry],
    place: &mut usize,
    purse: &mut Purse,
) -> Result<Dnf, Stop>
    requires { place.old ≤ length log.now }
    ensures { ReadAt (names_by_log names d.now) log.now place.old purse.old result place.new purse.new }
{
    let mut left = names;
    let mut rest = d.copy(alloc)?;
    'names: while left > 0 {
        rest = some_value(alloc, rest, left - 1, log, place, purse)?;
        left -= 1;
    }
    Ok(rest)
}
