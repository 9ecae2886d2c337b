// All quantifiers out of a formula.

ghost use Rattle.clause_set.specs.Dnfs.{top};
ghost use Rattle.elim_laws.specs.Whole.{AreOver, IsExact, all_of, any_of, eliminating};
ghost use Rattle.formula.specs.Form.{IsFormOver, existential, is_pure, universal};
ghost use Rattle.formula.specs.Sizes.{depth, depths};
ghost use Rattle.formula.specs.Tree.{form, forms_of};
ghost use Rattle.base_budget.specs.Trace.{at};
ghost use Rattle.base_budget.specs.Work.{ChargedAt, Logged, marks_of};
ghost use Rattle.std.specs.Prelude.{◌≡◌, ◌+◌, ◌<◌, ◌≤◌, ◌^◌, [], IfOk, true};

use super::atoms::atom;
use super::knowing::know_terms;
use super::taking::{take_name_out, with_log};
use base_budget::{ElimFault, ElimLog, Purse, StepFault};
use clause_set::{Dnf, and, not, or_into};
use formula::{Core, dual, size};
use sqlite_items::Items;
use std::alloc::Global;

/// The disjunction of the formula f over `names`, with the entries after those of the log.
#[cycle(elimination)]
#[tactic(auto, using(crate::proofs::Arms::arms))]
fn eliminate_form(
    alloc: Global,
    f: &Core,
    names: u32,
    purse: &mut Purse,
    log: &mut ElimLog,
) -> Result<Dnf, StepFault>
    requires room { names + depth (form f.now) ≤ 2 ^ 32 }
    requires budget { purse.old.budget < 2 ^ 32 }
    ensures { ChargedAt (eliminating names (form f.now)) (at purse.old (marks_of log.old)) result (at purse.new (marks_of log.new)) }
{
    match f {
        Core::Eq(_) => atom(alloc, f, purse),
        Core::Neq(_) => atom(alloc, f, purse),
        Core::Geq(_) => atom(alloc, f, purse),
        Core::Pred(_, _) => Ok(Dnf::bottom(alloc)),
        Core::NotPred(_, _) => Ok(Dnf::bottom(alloc)),
        Core::NotFun(_, _, _) => Ok(Dnf::bottom(alloc)),
        Core::And(fs) => conjunction_of(alloc, fs.as_slice(), names, purse, log),
        Core::Or(fs) => disjunction_of(alloc, fs.as_slice(), names, purse, log),
        Core::Forall(g) => every_value(alloc, g.get(), names, purse, log),
        Core::Exists(g) => some_value(alloc, g.get(), names, purse, log),
    }
}

/// The conjunction of the members.
#[cycle(elimination)]
#[tactic(auto, using(base_budget::proofs::Charging::logging))]
fn conjunction_of(
    alloc: Global,
    members: &[Core],
    names: u32,
    purse: &mut Purse,
    log: &mut ElimLog,
) -> Result<Dnf, StepFault>
    requires room { names + depths (forms_of members.now) ≤ 2 ^ 32 }
    requires budget { purse.old.budget < 2 ^ 32 }
    ensures { ChargedAt (all_of (eliminating names) (forms_of members.now) top) (at purse.old (marks_of log.old)) result (at purse.new (marks_of log.new)) }
{
    let mut all = Dnf::top(alloc)?;
    for f in members {
        let member = eliminate_form(alloc, f, names, purse, log)?;
        all = and(alloc, &all, &member, purse)?;
    }
    Ok(all)
}

/// The disjunction of the members.
#[cycle(elimination)]
#[tactic(auto, using(base_budget::proofs::Charging::logging))]
fn disjunction_of(
    alloc: Global,
    members: &[Core],
    names: u32,
    purse: &mut Purse,
    log: &mut ElimLog,
) -> Result<Dnf, StepFault>
    requires room { names + depths (forms_of members.now) ≤ 2 ^ 32 }
    requires budget { purse.old.budget < 2 ^ 32 }
    ensures { ChargedAt (any_of (eliminating names) (forms_of members.now) []) (at purse.old (marks_of log.old)) result (at purse.new (marks_of log.new)) }
{
    let mut any = Dnf::bottom(alloc);
    for f in members {
        let member = eliminate_form(alloc, f, names, purse, log)?;
        any = or_into(alloc, any, member, purse)?;
    }
    Ok(any)
}

/// The disjunction of "some value of the name `names` makes the body true".
#[cycle(elimination)]
#[tactic(auto, using(base_budget::proofs::Charging::logging))]
fn some_value(
    alloc: Global,
    body: &Core,
    names: u32,
    purse: &mut Purse,
    log: &mut ElimLog,
) -> Result<Dnf, StepFault>
    requires room { names + depth (existential (form body.now)) ≤ 2 ^ 32 }
    requires budget { purse.old.budget < 2 ^ 32 }
    ensures { ChargedAt (eliminating names (existential (form body.now))) (at purse.old (marks_of log.old)) result (at purse.new (marks_of log.new)) }
{
    let d = eliminate_form(alloc, body, names + 1, purse, log)?;
    take_name_out(alloc, d, names, purse, log)
}

/// The disjunction of "every value of the name `names` makes the body true": no value makes its negation true.
#[cycle(elimination)]
#[tactic(auto, using(base_budget::proofs::Charging::logging))]
fn every_value(
    alloc: Global,
    body: &Core,
    names: u32,
    purse: &mut Purse,
    log: &mut ElimLog,
) -> Result<Dnf, StepFault>
    requires room { names + depth (universal (form body.now)) ≤ 2 ^ 32 }
    requires budget { purse.old.budget < 2 ^ 32 }
    ensures { ChargedAt (eliminating names (universal (form body.now))) (at purse.old (marks_of log.old)) result (at purse.new (marks_of log.new)) }
{
    purse.step(size(body))?;
    let negation = dual(alloc, body)?;
    let fails = eliminate_form(alloc, &negation, names + 1, purse, log)?;
    let some = take_name_out(alloc, fails, names, purse, log)?;
    not(alloc, &some, purse)
}

/// The disjunction of clauses that is true exactly where the formula is, at every list of that many integers, and the log
/// of the rules that took its quantified names out. A formula over the names below `names` has a disjunction over them.
/// Both are said of formulas without predicates and functions; such parts count as false.
///
/// Refused with Steps exactly where a charge passes the budget, and else with Overflow exactly where a number that is
/// computed leaves the range, which it names; both carry the log of the rules that were performed before.
pub fn eliminate(
    alloc: Global,
    f: &Core,
    names: u32,
    purse: &mut Purse,
) -> Result<(Dnf, ElimLog), ElimFault>
    requires room { names + depth (form f.now) ≤ 2 ^ 32 }
    requires budget { purse.old.budget < 2 ^ 32 }
    ensures charged { Logged (eliminating names (form f.now)) purse.old result purse.new }
    ensures exact { is_pure (form f.now) ≡ true → IfOk result (λ r. IsExact r.0 (form f.now) names) }
    ensures over { is_pure (form f.now) ≡ true → IsFormOver names (form f.now) → IfOk result (λ r. AreOver names r.0) }
{
    know_terms(f);
    let mut log = ElimLog {
        entries: Items::new(alloc),
    };
    let outcome = eliminate_form(alloc, f, names, purse, &mut log);
    with_log(outcome, log)
}
