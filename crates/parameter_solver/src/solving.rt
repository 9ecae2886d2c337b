// Values for all names, one after the other.

ghost use Rattle.clause_set.specs.Literals.{dnf_truth};
ghost use Rattle.elim_laws.specs.Logs.{entries_of};
ghost use Rattle.elim_laws.specs.Whole.{AreOver, names_out};
ghost use Rattle.parameter_solver.specs.Logs.{Solves, answer_with, in_log, value_step};
ghost use Rattle.parameter_solver.specs.Names.{IsOfNames};
ghost use Rattle.base_budget.specs.Followed.{Followed};
ghost use Rattle.base_budget.specs.Trace.{at};
ghost use Rattle.base_budget.specs.Work.{ChargedAt, marks_of};
ghost use Rattle.solve_laws.specs.Best.{IsBest};
ghost use Rattle.solve_laws.specs.Solutions.{names_from, solving, values_at};
ghost use Rattle.std.specs.Prelude.{◌≡◌, ◌<◌, ◌+◌, ◌++◌, ◌^◌, [], ℤ, List, None, Ok, false, length};

use super::knowing::know_clauses;
use super::steps::chosen;
use super::values::with_value;
use base_budget::{ElimFault, ElimLog, Purse, StepFault};
use clause_set::Dnf;
use quant_elim::name_out;
use sqlite_items::Items;
use std::alloc::Global;

/// What solving a disjunction of clauses for its names finds.
#[derive(Drop)]
pub enum Solved {
    /// The best values, one for each name.
    Values(Items<i128>),
    /// No integers satisfy the disjunction: the log takes all names out and leaves no clause.
    None(ElimLog),
}

/// The k names from j on out of d, the last of them first.
pub fn names_from(
    alloc: Global,
    d: &Dnf,
    j: u32,
    k: u32,
    purse: &mut Purse,
    log: &mut ElimLog,
) -> Result<Dnf, StepFault>
    requires names { j + k < 2 ^ 32 }
    requires budget { purse.old.budget < 2 ^ 32 }
    ensures { ChargedAt (names_from k j d.now) (at purse.old (marks_of log.old)) result (at purse.new (marks_of log.new)) }
{
    let mut left = d.copy(alloc)?;
    let mut rest = k;
    while rest > 0 {
        rest -= 1;
        left = name_out(alloc, &left, j + rest, purse, log)?;
    }
    Ok(left)
}

/// The value of j, and d where j has it; k names come after j.
fn value_step(
    alloc: Global,
    d: &Dnf,
    j: u32,
    k: u32,
    purse: &mut Purse,
    log: &mut ElimLog,
) -> Result<(i128, Dnf), StepFault>
    requires names { j + k + 1 < 2 ^ 32 }
    requires over { IsOfNames j (j + k + 1) d.now }
    requires budget { purse.old.budget < 2 ^ 32 }
    ensures { Followed in_log (value_step k j d.now) purse.old log.old.entries result purse.new log.new.entries }
{
    log.entries = Items::new(alloc);
    let left = names_from(alloc, d, j + 1, k, purse, log)?;
    let v = chosen(alloc, left.clauses(), j, purse)?;
    let rest = with_value(alloc, d.clauses(), j, v, purse)?;
    Ok((v, rest))
}

/// The values of all names.
fn values(
    alloc: Global,
    d: &Dnf,
    names: u32,
    purse: &mut Purse,
    log: &mut ElimLog,
) -> Result<Items<i128>, StepFault>
    requires over { IsOfNames 0 names d.now }
    requires budget { purse.old.budget < 2 ^ 32 }
    ensures { Followed in_log (values_at names 0 d.now []) purse.old log.old.entries result purse.new log.new.entries }
{
    let mut values = Items::new(alloc);
    let mut rest = d.copy(alloc)?;
    for j in 0..names {
        let (v, next) = value_step(alloc, &rest, j, names - 1 - j, purse, log)?;
        values.push(v)?;
        rest = next;
    }
    Ok(values)
}

/// The values of all names, where the disjunction that is left without names is not false.
fn best_values(
    alloc: Global,
    d: &Dnf,
    names: u32,
    purse: &mut Purse,
    log: &mut ElimLog,
) -> Result<Option<Items<i128>>, StepFault>
    requires over { IsOfNames 0 names d.now }
    requires budget { purse.old.budget < 2 ^ 32 }
    ensures work { Followed in_log (solving names d.now) purse.old log.old.entries result purse.new log.new.entries }
    ensures none { result ≡ Ok None → log.new.entries ≡ log.old.entries ++ entries_of (names_out names d.now).events }
{
    let left = names_from(alloc, d, 0, names, purse, log)?;
    if left.len() == 0 {
        return Ok(None);
    }
    Ok(Some(values(alloc, d, names, purse, log)?))
}

/// The outcome with the log in progress.
fn answer_with(
    outcome: Result<Option<Items<i128>>, StepFault>,
    log: ElimLog,
) -> Result<Solved, ElimFault>
    ensures { result ≡ answer_with outcome log }
{
    match outcome {
        Ok(Some(values)) => Ok(Solved::Values(values)),
        Ok(None) => Ok(Solved::None(log)),
        Err(StepFault::Steps) => Err(ElimFault::Steps(log)),
        Err(StepFault::Overflow(place)) => Err(ElimFault::Overflow(log, place)),
        Err(StepFault::Memory) => Err(ElimFault::Memory),
    }
}

/// The best values of the names 0 to `names` − 1 that satisfy d, or None exactly where no integers do. Each value is, name
/// by name, the one nearest to 0 that the earlier ones leave possible, the positive one of two. None carries the log of
/// the rules that take all names out, the last name first.
///
/// Refused with Steps exactly where a charge passes the budget, and else with Overflow exactly where a number that is
/// computed leaves the range, which it names; both carry the log in progress, which begins anew with each value.
pub fn solve(alloc: Global, d: &Dnf, names: u32, purse: &mut Purse) -> Result<Solved, ElimFault>
    requires over { AreOver names d.now }
    requires budget { purse.old.budget < 2 ^ 32 }
    ensures charged { Solves (solving names d.now) purse.old result purse.new }
    ensures best { (vs : List ℤ) → result ≡ Ok (Solved.Values vs) → IsBest (dnf_truth d.now) names vs }
    ensures log { (log : ElimLog) → result ≡ Ok (Solved.None log) → log.entries ≡ entries_of (names_out names d.now).events }
    ensures none { (log : ElimLog) → result ≡ Ok (Solved.None log) → (w : List ℤ) → length w ≡ names → dnf_truth d.now w ≡ false }
{
    know_clauses(d.clauses());
    let mut log = ElimLog {
        entries: Items::new(alloc),
    };
    let outcome = best_values(alloc, d, names, purse, &mut log);
    answer_with(outcome, log)
}
