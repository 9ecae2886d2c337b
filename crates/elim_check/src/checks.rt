// Whole logs, checked.

ghost use Rattle.elim_check.specs.Checked.{Checked, told};
ghost use Rattle.elim_check.specs.Reading.{reading};
ghost use Rattle.elim_laws.specs.Elimination.{IsEvery, IsOut};
ghost use Rattle.elim_laws.specs.Logs.{every_by_log, name_by_log, names_by_log};
ghost use Rattle.elim_laws.specs.Whole.{AreOver, IsExact, HasSolution};
ghost use Rattle.clause_set.specs.Literals.{dnf_truth};
ghost use Rattle.formula.specs.Form.{IsFormOver, is_pure};
ghost use Rattle.formula.specs.Sizes.{depth};
ghost use Rattle.formula.specs.Tree.{form};
ghost use Rattle.std.specs.Prelude.{◌≡◌, ◌+◌, ◌-◌, ◌<◌, ◌≤◌, ◌^◌, ◌↔◌, [], IfOk, true};

use super::fault::{LogFault, Stop};
use super::forms::form_by_log;
use super::names::{every_value, some_value_kept, some_values};
use base_budget::{ElimLog, Purse, StepFault};
use clause_set::Dnf;
use elim_laws::know_formed;
use formula::Core;
use std::alloc::Global;

/// The answer of work that did the entries before the place, of this many: one that is left over is wrong.
fn told(answer: Result<Dnf, Stop>, place: usize, entries: usize) -> Result<Dnf, LogFault>
    ensures { result ≡ told answer place entries }
{
    match answer {
        Ok(d) => {
            if place == entries {
                Ok(d)
            } else {
                Err(LogFault::Entry(place as u64))
            }
        }
        Err(Stop::Entry) => Err(LogFault::Entry(place as u64)),
        Err(Stop::Step(StepFault::Steps)) => Err(LogFault::Cost(place as u64)),
        Err(Stop::Step(StepFault::Overflow(p))) => Err(LogFault::Range(place as u64, p)),
        Err(Stop::Step(StepFault::Memory)) => Err(LogFault::Memory),
    }
}

/// The disjunction that the elimination of f over `names` by the rules of the log ends in: true exactly where f is, at every
/// list of that many integers, whoever wrote the log. That is said of formulas without predicates and functions; such
/// parts count as false.
///
/// Refused at the first step that cannot be done: with Entry where the entry for it is missing or names no rule that
/// applies, else with Cost where a charge passes the budget, else with Range where a number leaves the range. Where all work
/// is done and an entry is left over, with Entry too.
pub fn check_log(
    alloc: Global,
    f: &Core,
    names: u32,
    log: &ElimLog,
    purse: &mut Purse,
) -> Result<Dnf, LogFault>
    requires { names + depth (form f.now) ≤ 2 ^ 32 }
    ensures work { Checked (reading names (form f.now)) log.now.entries purse.old result purse.new }
    ensures exact { is_pure (form f.now) ≡ true → IfOk result (λ d. IsExact d (form f.now) names) }
    ensures over { is_pure (form f.now) ≡ true → IsFormOver names (form f.now) → IfOk result (λ d. AreOver names d) }
{
    f.know_reduced();
    let entries = log.entries.as_slice();
    let mut place = 0;
    let answer = form_by_log(alloc, f, names, entries, &mut place, purse);
    told(answer, place, entries.len())
}

/// The disjunction that is true exactly where some value of x makes d true, without x, by the rules of the log. Refused as
/// `check_log` is.
pub fn check_exists(
    alloc: Global,
    d: &Dnf,
    x: u32,
    log: &ElimLog,
    purse: &mut Purse,
) -> Result<Dnf, LogFault>
    ensures work { Checked (name_by_log x d.now) log.now.entries purse.old result purse.new }
    ensures out { IfOk result (λ r. IsOut x d.now r) }
{
    know_formed(d.clauses());
    let entries = log.entries.as_slice();
    let mut place = 0;
    let answer = some_value_kept(alloc, d, x, entries, &mut place, purse);
    told(answer, place, entries.len())
}

/// The disjunction that is true exactly where every value of the last of the names makes d true, without that name, by the
/// rules of the log. Refused as `check_log` is.
pub fn check_forall(
    alloc: Global,
    d: &Dnf,
    names: u32,
    log: &ElimLog,
    purse: &mut Purse,
) -> Result<Dnf, LogFault>
    requires { 0 < names }
    ensures work { Checked (every_by_log (names - 1) d.now) log.now.entries purse.old result purse.new }
    ensures every { IfOk result (λ r. IsEvery (names - 1) d.now r) }
{
    know_formed(d.clauses());
    let entries = log.entries.as_slice();
    let mut place = 0;
    let answer = every_value(alloc, d, names - 1, entries, &mut place, purse);
    told(answer, place, entries.len())
}

/// The disjunction that is left of d where one log takes all its names out, the greatest first: true exactly where some
/// integers satisfy d. Refused as `check_log` is.
pub fn check_all(
    alloc: Global,
    d: &Dnf,
    names: u32,
    log: &ElimLog,
    purse: &mut Purse,
) -> Result<Dnf, LogFault>
    ensures work { Checked (names_by_log names d.now) log.now.entries purse.old result purse.new }
    ensures satisfied { IfOk result (λ r. HasSolution d.now names ↔ (dnf_truth r [] ≡ true)) }
{
    know_formed(d.clauses());
    let entries = log.entries.as_slice();
    let mut place = 0;
    let answer = some_values(alloc, d, names, entries, &mut place, purse);
    told(answer, place, entries.len())
}
