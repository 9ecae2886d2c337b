// The constraint of a node, made again of those of its premises by the log that the proof gives.

ghost use Rattle.clause_set.specs.Dnfs.{top};
ghost use Rattle.formula.specs.Sizes.{depth};
ghost use Rattle.elim_laws.specs.Logs.{by_whole_log, name_by_log, reads_none, every_by_log};
ghost use Rattle.pred_unify.specs.Pairs.{closing_of};
ghost use Rattle.pred_unify.specs.Reading.{HasKinds, sequent_at};
ghost use Rattle.tree_branch.specs.Standing.{rule_at, standing};
ghost use Rattle.proof_tree.specs.Rules.{conjoined, first_given};
ghost use Rattle.proof_tree.specs.Walk.{eliminates, redone};
ghost use Rattle.base_budget.specs.Followed.{Followed, Later};
ghost use Rattle.base_budget.specs.Trace.{Funds, just};
ghost use Rattle.base_budget.specs.declared.log.Entry.{Entry};
ghost use Rattle.sequent.specs.Views.{HasRoom, sequent_of};
ghost use Rattle.sequent.specs.declared.member.Pick.TheVariants as pick;
ghost use Rattle.std.specs.Prelude.{◌≡◌, ◌+◌, ◌<◌, ◌≤◌, ◌^◌, [], List, ℕ};
ghost use Rattle.tree_checker.specs.Hand.{at_node, outcome};
ghost use Rattle.tree_checker.specs.Walking.{IsLogOf};

use base_budget::{ElimLog, Purse, StepFault};
use clause_set::Dnf;
use elim_check::{LogFault, check_exists, check_forall, check_log};
use pred_unify::{Leaf, closing_at};
use sequent::Shape;
use sqlite_items::Items;
use std::alloc::Global;
use tree_branch::{Branch, Principal, conjoined};

/// The answer about a log, as a walk over a proof has it.
pub fn outcome(answer: Result<Dnf, LogFault>) -> Result<Option<Dnf>, StepFault>
    ensures { result ≡ outcome answer }
{
    match answer {
        Ok(d) => Ok(Some(d)),
        Err(LogFault::Entry(_)) => Ok(None),
        Err(LogFault::Cost(_)) => Err(StepFault::Steps),
        Err(LogFault::Range(_, place)) => Err(StepFault::Overflow(place)),
        Err(LogFault::Memory) => Err(StepFault::Memory),
    }
}

/// The first constraint, taken out of them; false where there is none.
fn first_of(alloc: Global, given: Items<Dnf>) -> Dnf
    ensures { result ≡ first_given given }
{
    let mut rest = given;
    if rest.is_empty() {
        Dnf::bottom(alloc)
    } else {
        rest.remove(0)
    }
}

/// The constraint of trivial.
#[tactic(auto, using(base_budget::proofs::Following::follow_memory, crate::proofs::Redoing::unlogged_just))]
fn trivial(alloc: Global) -> Result<Option<Dnf>, StepFault>
    ensures { (b : Funds) (n : ℕ) → Followed at_node (by_whole_log (reads_none (just top)) []) b n result b n }
{
    Ok(Some(Dnf::top(alloc)?))
}

/// The constraint of alpha: that of the premise.
#[tactic(auto, using(crate::proofs::Redoing::unlogged_just))]
fn alpha(alloc: Global, given: Items<Dnf>) -> Result<Option<Dnf>, StepFault>
    ensures { (b : Funds) (n : ℕ) → Followed at_node (by_whole_log (reads_none (just (first_given given))) []) b n result b n }
{
    Ok(Some(first_of(alloc, given)))
}

/// The constraint of beta: that of each premise.
#[tactic(auto, using(base_budget::proofs::Following::follow_memory, crate::proofs::Redoing::unlogged_ok, crate::proofs::Redoing::unlogged_err))]
fn beta(alloc: Global, given: &[Dnf], purse: &mut Purse) -> Result<Option<Dnf>, StepFault>
    ensures { (n : ℕ) → Followed at_node (by_whole_log (reads_none (conjoined given.now top)) []) purse.old n result purse.new n }
{
    Ok(Some(conjoined(alloc, given, purse)?))
}

/// The constraint of delta: that of the premise, for every value of the new constant, which comes after this many.
fn delta(
    alloc: Global,
    count: u32,
    given: Items<Dnf>,
    log: &ElimLog,
    purse: &mut Purse,
) -> Result<Option<Dnf>, StepFault>
    requires room { count + 1 < 2 ^ 32 }
    ensures { (n : ℕ) → Followed at_node (by_whole_log (every_by_log count (first_given given)) log.now.entries) purse.old n result purse.new n }
{
    let d = first_of(alloc, given);
    outcome(check_forall(alloc, &d, count + 1, log, purse))
}

/// The constraint of gamma: that of the premise, for some value of the new constant, which comes after this many.
fn gamma(
    alloc: Global,
    count: u32,
    given: Items<Dnf>,
    log: &ElimLog,
    purse: &mut Purse,
) -> Result<Option<Dnf>, StepFault>
    ensures { (n : ℕ) → Followed at_node (by_whole_log (name_by_log count (first_given given)) log.now.entries) purse.old n result purse.new n }
{
    let d = first_of(alloc, given);
    outcome(check_exists(alloc, &d, count, log, purse))
}

/// The constraint of the rule with this principal, made again of those of its premises; by the log, where the rule eliminates.
pub fn redo(
    alloc: Global,
    branch: &Branch,
    principal: &Principal,
    given: Items<Dnf>,
    log: &ElimLog,
    purse: &mut Purse,
) -> Result<Option<Dnf>, StepFault>
    requires room { (standing branch.now).count + 1 < 2 ^ 32 }
    requires funds { purse.old.spent ≤ purse.old.budget }
    ensures work { (es : List Entry) (n : ℕ) → IsLogOf (eliminates (rule_at principal.now.shape principal.now.index)) log.now es
        → Followed at_node (redone (standing branch.now) (rule_at principal.now.shape principal.now.index) given es) purse.old n result purse.new n }
    ensures later { Later purse.old purse.new }
{
    match principal.shape {
        Shape::Trivial => trivial(alloc),
        Shape::Alpha => alpha(alloc, given),
        Shape::Delta => delta(alloc, branch.count(), given, log, purse),
        Shape::Beta => beta(alloc, given.as_slice(), purse),
        Shape::Gamma => gamma(alloc, branch.count(), given, log, purse),
    }
}

/// The constraint of a leaf that is closed, made again by a log: its closing formula without quantifiers.
pub fn redo_leaf(
    alloc: Global,
    leaf: &Leaf,
    log: &ElimLog,
    purse: &mut Purse,
) -> Result<Option<Dnf>, StepFault>
    requires room { HasRoom (sequent_at leaf.now) }
    requires kinds { HasKinds leaf.now }
    requires depth { leaf.now.count + depth (closing_of (sequent_of (sequent_at leaf.now))).value ≤ 2 ^ 32 }
    requires funds { purse.old.spent ≤ purse.old.budget }
    ensures work { (n : ℕ) → Followed at_node (redone (sequent_of (sequent_at leaf.now)) pick.Close [] log.now.entries) purse.old n result purse.new n }
    ensures later { Later purse.old purse.new }
{
    match closing_at(alloc, leaf) {
        Ok(f) => outcome(check_log(alloc, &f, leaf.count, log, purse)),
        Err(fault) => Err(StepFault::from(fault)),
    }
}
