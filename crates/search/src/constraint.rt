// The constraint of a node, rule by rule: what the rule makes of the constraints of its premises.

ghost use Rattle.clause_set.specs.Dnfs.{top};
ghost use Rattle.clause_set.specs.declared.literal.Literal.{Literal};
ghost use Rattle.elim_laws.specs.Elimination.{exists_name, for_all_name};
ghost use Rattle.elim_laws.specs.Whole.{eliminating};
ghost use Rattle.formula.specs.Sizes.{depth};
ghost use Rattle.tree_branch.specs.Standing.{rule_at, standing};
ghost use Rattle.pred_unify.specs.Pairs.{closing_of};
ghost use Rattle.pred_unify.specs.Reading.{HasKinds, sequent_at};
ghost use Rattle.proof_tree.specs.Rules.{conjoined, first_given};
ghost use Rattle.base_budget.specs.Followed.{Followed};
ghost use Rattle.base_budget.specs.Trace.{Funds, just, next, pay};
ghost use Rattle.base_budget.specs.Work.{Charged, Logged};
ghost use Rattle.search.specs.Building.{canonical_constraint};
ghost use Rattle.search.specs.Course.{noted};
ghost use Rattle.search.specs.Trues.{are_top};
ghost use Rattle.search.specs.Walking.{making, unlogged, without_log};
ghost use Rattle.sequent.specs.Views.{HasRoom, sequent_of};
ghost use Rattle.sequent.specs.declared.member.Pick.TheVariants as pick;
ghost use Rattle.std.specs.Prelude.{◌≡◌, ◌+◌, ◌<◌, ◌≤◌, ◌^◌, [], IfOk, List, true};

use super::constraints::Constraints;
use super::course::Course;
use base_budget::{ElimFault, ElimLog, Purse, StepFault};
use clause_set::Dnf;
use linear_term::{Memory, TermFault};
use pred_unify::{Leaf, closing_at};
use quant_elim::{eliminate, forall_last};
use sequent::Shape;
use sqlite_items::Items;
use std::alloc::Global;
use tree_branch::{Branch, Principal, conjoined};

/// The refusal of a call on terms, before the first entry of a log.
fn without_log(alloc: Global, fault: TermFault) -> ElimFault
    ensures { result ≡ without_log fault }
{
    match fault {
        TermFault::Overflow(place) => {
            let log = ElimLog {
                entries: Items::new(alloc),
            };
            ElimFault::Overflow(log, place)
        }
        TermFault::Memory => ElimFault::Memory,
    }
}

/// The constraint of a leaf that is closed: its closing formula without quantifiers.
fn close(alloc: Global, leaf: &Leaf, purse: &mut Purse) -> Result<(Dnf, ElimLog), ElimFault>
    requires room { HasRoom (sequent_at leaf.now) }
    requires kinds { HasKinds leaf.now }
    requires depth { leaf.now.count + depth (closing_of (sequent_of (sequent_at leaf.now))).value ≤ 2 ^ 32 }
    requires budget { purse.old.budget < 2 ^ 32 }
    ensures { Logged (next (closing_of (sequent_of (sequent_at leaf.now))) (λ f. eliminating leaf.now.count f)) purse.old result purse.new }
{
    match closing_at(alloc, leaf) {
        Ok(f) => eliminate(alloc, &f, leaf.count, purse),
        Err(fault) => Err(without_log(alloc, fault)),
    }
}

/// A constraint that eliminates nothing, with its empty log.
fn unlogged(alloc: Global, outcome: Result<Dnf, StepFault>) -> Result<(Dnf, ElimLog), ElimFault>
    ensures { result ≡ unlogged outcome }
{
    let log = ElimLog {
        entries: Items::new(alloc),
    };
    match outcome {
        Ok(constraint) => Ok((constraint, log)),
        Err(StepFault::Steps) => Err(ElimFault::Steps(log)),
        Err(StepFault::Overflow(place)) => Err(ElimFault::Overflow(log, place)),
        Err(StepFault::Memory) => Err(ElimFault::Memory),
    }
}

/// A constraint that costs nothing.
fn free(alloc: Global, outcome: Result<Dnf, Memory>) -> Result<(Dnf, ElimLog), ElimFault>
    ensures { (d : List (List Literal)) (b : Funds) → IfOk outcome (λ c. c ≡ d) → Logged (just d) b result b }
{
    match outcome {
        Ok(constraint) => unlogged(alloc, Ok(constraint)),
        Err(_) => Err(ElimFault::Memory),
    }
}

/// The charges of the conjunction of a true constraint and another one.
#[tactic(auto, using(base_budget::proofs::Charging::logging))]
fn pay_for_true(purse: &mut Purse) -> Result<(), StepFault>
    ensures { Charged (next (pay 1) (λ _. pay 1)) purse.old result purse.new }
{
    purse.step(1)?;
    purse.step(1)
}

/// The conjunction of constraints that are all true: the first of them, for the charges of all.
fn all_true(alloc: Global, ds: Constraints, purse: &mut Purse) -> Result<Dnf, StepFault>
    requires all { are_top ds ≡ true }
    requires first { first_given ds ≡ top }
    ensures { Charged (conjoined ds top) purse.old result purse.new }
{
    let all = ds.as_slice();
    for d in all {
        pay_for_true(purse)?;
    }
    Ok(ds.into_first(alloc))
}

/// The constraint of beta: that of each premise.
fn beta(alloc: Global, ds: Constraints, purse: &mut Purse) -> Result<(Dnf, ElimLog), ElimFault>
    ensures { Logged (conjoined ds top) purse.old result purse.new }
{
    if ds.are_true() {
        let all = all_true(alloc, ds, purse);
        return unlogged(alloc, all);
    }
    let all = conjoined(alloc, ds.as_slice(), purse);
    unlogged(alloc, all)
}

/// The constraint of delta: that of the premise, for every value of the new constant, which comes after this many.
fn delta(
    alloc: Global,
    count: u32,
    ds: Constraints,
    purse: &mut Purse,
) -> Result<(Dnf, ElimLog), ElimFault>
    requires room { count + 1 < 2 ^ 32 }
    requires budget { purse.old.budget < 2 ^ 32 }
    ensures { Logged (for_all_name count (first_given ds)) purse.old result purse.new }
{
    forall_last(alloc, &ds.into_first(alloc), count + 1, purse)
}

/// Some value of a constraint without clauses: none again, for the step of tidying it.
#[tactic(auto, using(base_budget::proofs::Charging::logging))]
fn nothing(d: Dnf, purse: &mut Purse) -> Result<Dnf, StepFault>
    requires { d ≡ [] }
    ensures { Charged (next (pay 0) (λ _. just [])) purse.old result purse.new }
{
    purse.step(0)?;
    Ok(d)
}

/// The constraint of gamma: that of the premise, for some value of the new constant, which comes after this many.
fn gamma(
    alloc: Global,
    count: u32,
    ds: Constraints,
    purse: &mut Purse,
) -> Result<(Dnf, ElimLog), ElimFault>
    requires budget { purse.old.budget < 2 ^ 32 }
    ensures { Logged (exists_name count (first_given ds)) purse.old result purse.new }
{
    let d = ds.into_first(alloc);
    if d.clauses().is_empty() {
        let none = nothing(d, purse);
        return unlogged(alloc, none);
    }
    quant_elim::exists_name(alloc, &d, count, purse)
}

/// The constraint of the rule with this principal, made of those of its premises.
fn constraint(
    alloc: Global,
    branch: &Branch,
    principal: &Principal,
    ds: Constraints,
    purse: &mut Purse,
) -> Result<(Dnf, ElimLog), ElimFault>
    requires room { (standing branch.now).count + 1 < 2 ^ 32 }
    requires budget { purse.old.budget < 2 ^ 32 }
    ensures { Logged (canonical_constraint (standing branch.now) (rule_at principal.now.shape principal.now.index) ds) purse.old result purse.new }
{
    match principal.shape {
        Shape::Trivial => free(alloc, Dnf::top(alloc)),
        Shape::Alpha => unlogged(alloc, Ok(ds.into_first(alloc))),
        Shape::Delta => delta(alloc, branch.count(), ds, purse),
        Shape::Beta => beta(alloc, ds, purse),
        Shape::Gamma => gamma(alloc, branch.count(), ds, purse),
    }
}

/// The constraint of the rule with this principal, in a run: made in a log of its own.
pub fn made(
    alloc: Global,
    branch: &Branch,
    principal: &Principal,
    ds: Constraints,
    course: &mut Course,
    purse: &mut Purse,
) -> Result<(Dnf, ElimLog), StepFault>
    requires room { (standing branch.now).count + 1 < 2 ^ 32 }
    requires budget { purse.old.budget < 2 ^ 32 }
    ensures work { Followed noted (making (standing branch.now) (rule_at principal.now.shape principal.now.index) ds) purse.old course.old result purse.new course.new }
    ensures nodes { IfOk result (λ r. course.new.nodes ≡ course.old.nodes) }
{
    course.begin_log(alloc);
    match constraint(alloc, branch, principal, ds, purse) {
        Ok(outcome) => Ok(outcome),
        Err(fault) => Err(course.cut(fault)),
    }
}

/// The constraint of a leaf that is closed, in a run: made in a log of its own.
pub fn made_at_leaf(
    alloc: Global,
    leaf: &Leaf,
    course: &mut Course,
    purse: &mut Purse,
) -> Result<(Dnf, ElimLog), StepFault>
    requires room { HasRoom (sequent_at leaf.now) }
    requires kinds { HasKinds leaf.now }
    requires depth { leaf.now.count + depth (closing_of (sequent_of (sequent_at leaf.now))).value ≤ 2 ^ 32 }
    requires budget { purse.old.budget < 2 ^ 32 }
    ensures work { Followed noted (making (sequent_of (sequent_at leaf.now)) pick.Close []) purse.old course.old result purse.new course.new }
    ensures nodes { IfOk result (λ r. course.new.nodes ≡ course.old.nodes) }
{
    course.begin_log(alloc);
    match close(alloc, leaf, purse) {
        Ok(outcome) => Ok(outcome),
        Err(fault) => Err(course.cut(fault)),
    }
}
