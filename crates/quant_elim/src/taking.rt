// A name out of clauses, by the rules that come first.

ghost use Rattle.elim_laws.specs.Elimination.{IsEvery, IsOut, exists_name, for_all_name, taken_out};
ghost use Rattle.clause_set.specs.Rules.{unused};
ghost use Rattle.base_budget.specs.Trace.{at, each};
ghost use Rattle.base_budget.specs.Work.{Charged, ChargedAt, Logged, marks_of};
ghost use Rattle.quant_elim.specs.Logging.{with_log};
ghost use Rattle.std.specs.Prelude.{◌≡◌, IfOk, [], ◌<◌, ◌-◌, ◌^◌, reverse};

use super::choice::first_choice;
use super::rows::row;
use base_budget::{ElimFault, ElimLog, Purse, StepFault};
use clause_set::{Clause, Dnf, not};
use elim_laws::know_formed;
use linear_term::Memory;
use sqlite_items::Items;
use std::alloc::Global;

/// A clause without the name stays.
#[tactic(auto, using(base_budget::proofs::Charging::charging))]
fn staying(alloc: Global, c: Clause, purse: &mut Purse) -> Result<Items<Clause>, StepFault>
    ensures { Charged (unused c) purse.old result purse.new }
{
    purse.step(1)?;
    let mut out = Items::new(alloc);
    out.push(c)?;
    Ok(out)
}

/// The clauses, the last one first.
#[tactic(auto, using(crate::proofs::Turning::short))]
fn turned_round(alloc: Global, cs: Items<Clause>) -> Result<Items<Clause>, Memory>
    ensures { IfOk result (λ left. left ≡ reverse cs) }
{
    if cs.len() < 2 {
        return Ok(cs);
    }
    let mut cs = cs;
    let mut left = Items::new(alloc);
    while let Some(c) = cs.pop() {
        left.push(c)?;
    }
    Ok(left)
}

/// x out of c: each rule writes its entry after those of the log.
#[cycle(taking)]
#[tactic(auto, using(base_budget::proofs::Charging::logging))]
fn take_out(
    alloc: Global,
    c: Clause,
    x: u32,
    purse: &mut Purse,
    log: &mut ElimLog,
) -> Result<Items<Clause>, StepFault>
    requires { purse.old.budget < 2 ^ 32 }
    ensures { ChargedAt (taken_out x c) (at purse.old (marks_of log.old)) result (at purse.new (marks_of log.new)) }
{
    match first_choice(&c, x) {
        None => staying(alloc, c, purse),
        Some(choice) => {
            let (entry, results) = row(alloc, c, x, choice, purse)?;
            log.entries.push(entry)?;
            take_out_all(alloc, results, x, purse, log)
        }
    }
}

/// x out of each of the clauses that a rule left.
#[cycle(taking)]
#[tactic(auto, using(base_budget::proofs::Charging::logging, crate::proofs::Turning::turning))]
fn take_out_all(
    alloc: Global,
    cs: Items<Clause>,
    x: u32,
    purse: &mut Purse,
    log: &mut ElimLog,
) -> Result<Items<Clause>, StepFault>
    requires { purse.old.budget < 2 ^ 32 }
    ensures { ChargedAt (each (taken_out x) cs []) (at purse.old (marks_of log.old)) result (at purse.new (marks_of log.new)) }
{
    let mut left = turned_round(alloc, cs)?;
    let mut out = Items::new(alloc);
    while let Some(c) = left.pop() {
        out.append(take_out(alloc, c, x, purse, log)?)?;
    }
    Ok(out)
}

/// x out of d, which is handed over, with the entries of the rules after those of the log.
#[tactic(auto, using(base_budget::proofs::Charging::logging))]
pub(crate) fn take_name_out(
    alloc: Global,
    d: Dnf,
    x: u32,
    purse: &mut Purse,
    log: &mut ElimLog,
) -> Result<Dnf, StepFault>
    requires { purse.old.budget < 2 ^ 32 }
    ensures { ChargedAt (exists_name x d) (at purse.old (marks_of log.old)) result (at purse.new (marks_of log.new)) }
{
    let cs = take_out_all(alloc, d.into_clauses(), x, purse, log)?;
    Dnf::tidy(alloc, cs, purse)
}

/// x out of d, with the entries of the rules after those of the log: for callers that take several names out with one log.
///
/// Refused with Steps exactly where a charge passes the budget, and else with Overflow exactly where a number that a rule
/// computes leaves the range, which it names; the log then has the entries of the rules that were performed before.
#[tactic(auto, using(base_budget::proofs::Charging::logging))]
pub fn name_out(
    alloc: Global,
    d: &Dnf,
    x: u32,
    purse: &mut Purse,
    log: &mut ElimLog,
) -> Result<Dnf, StepFault>
    requires { purse.old.budget < 2 ^ 32 }
    ensures { ChargedAt (exists_name x d.now) (at purse.old (marks_of log.old)) result (at purse.new (marks_of log.new)) }
{
    take_name_out(alloc, d.copy(alloc)?, x, purse, log)
}

/// The outcome with the log of what was done; running out of memory has none.
pub(crate) fn with_log(
    outcome: Result<Dnf, StepFault>,
    log: ElimLog,
) -> Result<(Dnf, ElimLog), ElimFault>
    ensures { result ≡ with_log outcome log }
{
    match outcome {
        Ok(d) => Ok((d, log)),
        Err(StepFault::Steps) => Err(ElimFault::Steps(log)),
        Err(StepFault::Overflow(place)) => Err(ElimFault::Overflow(log, place)),
        Err(StepFault::Memory) => Err(ElimFault::Memory),
    }
}

/// The disjunction that is true exactly where some value of x makes d true, without x, and the log of the rules that took
/// x out of the clauses of d.
///
/// Refused with Steps exactly where a charge passes the budget, and else with Overflow exactly where a number that a rule
/// computes leaves the range, which it names; both carry the log of the rules that were performed before.
pub fn exists_name(
    alloc: Global,
    d: &Dnf,
    x: u32,
    purse: &mut Purse,
) -> Result<(Dnf, ElimLog), ElimFault>
    requires { purse.old.budget < 2 ^ 32 }
    ensures charged { Logged (exists_name x d.now) purse.old result purse.new }
    ensures out { IfOk result (λ r. IsOut x d.now r.0) }
{
    know_formed(d.clauses());
    let mut log = ElimLog {
        entries: Items::new(alloc),
    };
    let outcome = name_out(alloc, d, x, purse, &mut log);
    with_log(outcome, log)
}

/// x out of d by "every value", with the entries after those of the log.
#[tactic(auto, using(base_budget::proofs::Charging::logging))]
fn all_values(
    alloc: Global,
    d: &Dnf,
    x: u32,
    purse: &mut Purse,
    log: &mut ElimLog,
) -> Result<Dnf, StepFault>
    requires { purse.old.budget < 2 ^ 32 }
    ensures { ChargedAt (for_all_name x d.now) (at purse.old (marks_of log.old)) result (at purse.new (marks_of log.new)) }
{
    let fails = not(alloc, d, purse)?;
    let some = take_name_out(alloc, fails, x, purse, log)?;
    not(alloc, &some, purse)
}

/// The disjunction that is true exactly where every value of the last of the names makes d true, without that name, and
/// the log. Refused as `exists_name` is.
pub fn forall_last(
    alloc: Global,
    d: &Dnf,
    names: u32,
    purse: &mut Purse,
) -> Result<(Dnf, ElimLog), ElimFault>
    requires some { 0 < names }
    requires budget { purse.old.budget < 2 ^ 32 }
    ensures charged { Logged (for_all_name (names - 1) d.now) purse.old result purse.new }
    ensures every { IfOk result (λ r. IsEvery (names - 1) d.now r.0) }
{
    know_formed(d.clauses());
    let mut log = ElimLog {
        entries: Items::new(alloc),
    };
    let outcome = all_values(alloc, d, names - 1, purse, &mut log);
    with_log(outcome, log)
}
