// The walk through an open tree.

ghost use Rattle.linear_term.specs.Range.{InRange};
ghost use Rattle.sequent.specs.Rules as calculus;
ghost use Rattle.sequent.specs.Views.{HasRoom, sequent_of};
ghost use Rattle.std.specs.List.{AllByRecursion};
ghost use Rattle.base_budget.specs.Trace.{next};
ghost use Rattle.std.specs.List.{slice_get};
ghost use Rattle.std.specs.Prelude.{◌≡◌, ◌+◌, ◌<◌, ◌≤◌, ◌^◌, drop, IfOk, length, List, map, Ok, Some, suc, ℤ};
ghost use Rattle.countermodel.specs.Doing.{DoesWork};
ghost use Rattle.countermodel.specs.Ready.{AreWalkReady, IsWalkReady};
ghost use Rattle.countermodel.specs.Stopped.{stopped};
ghost use Rattle.countermodel.specs.declared.walking.Stop.{Stop};
ghost use Rattle.proof_tree.specs.Proof.{Proof, all_given, given, proofs};
ghost use Rattle.proof_tree.specs.Rules.{first_given};
ghost use Rattle.proof_tree.specs.Views.{proof_of};
ghost use Rattle.proof_tree.specs.Walk.{on_some};
ghost use Rattle.solve_laws.specs.Solutions.{IsGiven};
ghost use Rattle.model_trees.specs.Walk as w;

use super::finding::{affirmed, denied};
use base_budget::{Purse, StepFault};
use linear_term::Memory;
use proof_tree::Node;
use sequent::{Member, Pick, Sequent, premise};
use sqlite_items::{Items, at};
use std::alloc::Global;

/// Where a walk ends: the values of all constants, and the members of the leaf.
#[derive(Drop)]
pub struct Stop {
    pub values: Items<i128>,
    pub members: Items<Member>,
}

/// The walk from a node of the sequent s with the values of its constants, in a tree of at most `left` levels; none where there is no
/// way on.
#[cycle(walk)]
pub fn walk(
    alloc: Global,
    s: Sequent,
    x: &Node,
    left: u32,
    values: Items<i128>,
    purse: &mut Purse,
) -> Result<Option<Stop>, StepFault>
    requires ready { IsWalkReady left (sequent_of s) (proof_of x.now) values }
    requires budget { purse.old.budget < 2 ^ 32 }
    ensures work { DoesWork (w.walk (sequent_of s) (proof_of x.now) values) purse.old (stopped result) purse.new }
    ensures values { (stop : Stop) → result ≡ Ok (Some stop) → AllByRecursion InRange stop.values }
{
    if left == 0 {
        return Ok(None);
    }
    match x.rule {
        Pick::Trivial(_) => Ok(None),
        Pick::Gamma(_) => Ok(None),
        Pick::Alpha(_) => step(
            alloc,
            &s,
            x.rule,
            0,
            x.children.as_slice(),
            left - 1,
            values,
            purse,
        ),
        Pick::Delta(_) => turn(
            alloc,
            &s,
            x.rule,
            x.children.as_slice(),
            left - 1,
            values,
            purse,
        ),
        Pick::Beta(_) => fork(
            alloc,
            &s,
            x.rule,
            x.children.as_slice(),
            left - 1,
            values,
            purse,
        ),
        Pick::Close => Ok(Some(Stop {
            values,
            members: s.members,
        })),
    }
}

/// Premise number i. Its work takes no room in the frames of the walk.
#[inline(never)]
fn premise_apart(alloc: Global, s: &Sequent, rule: Pick, i: u32) -> Result<Sequent, Memory>
    requires room { HasRoom s.now }
    requires within { i < length (calculus.premises_of (sequent_of s.now) rule) }
    ensures { IfOk result (λ t. slice_get (calculus.premises_of (sequent_of s.now) rule) i ≡ Some (sequent_of t)) }
{
    premise(alloc, s, rule, i)
}

/// The walk from child number i.
#[cycle(walk)]
fn step(
    alloc: Global,
    s: &Sequent,
    rule: Pick,
    i: u32,
    children: &[Node],
    left: u32,
    values: Items<i128>,
    purse: &mut Purse,
) -> Result<Option<Stop>, StepFault>
    requires room { HasRoom s.now }
    requires ready { AreWalkReady left (drop i (calculus.premises_of (sequent_of s.now) rule)) (proofs (map proof_of (drop i children.now))) values }
    requires budget { purse.old.budget < 2 ^ 32 }
    ensures work { DoesWork (w.walk_first (drop i (calculus.premises_of (sequent_of s.now) rule)) (proofs (map proof_of (drop i children.now))) values) purse.old (stopped result) purse.new }
    ensures values { (stop : Stop) → result ≡ Ok (Some stop) → AllByRecursion InRange stop.values }
{
    match at(children, i as usize) {
        Some(child) => {
            let t = premise_apart(alloc, s, rule, i)?;
            walk(alloc, t, child, left, values, purse)
        }
        None => Ok(None),
    }
}

/// The walk from the child of a delta, with a value of the new constant at which the child's constraint is false.
#[cycle(walk)]
fn turn(
    alloc: Global,
    s: &Sequent,
    rule: Pick,
    children: &[Node],
    left: u32,
    values: Items<i128>,
    purse: &mut Purse,
) -> Result<Option<Stop>, StepFault>
    requires room { HasRoom s.now }
    requires few { s.now.count + 1 < 2 ^ 32 }
    requires child { 1 ≤ length children.now }
    requires given { (child : Proof) → slice_get (map proof_of children.now) 0 ≡ Some child → IsGiven (s.now.count + 1) (given child) }
    requires ready { (u : List ℤ) → AllByRecursion InRange u → length u ≡ s.now.count + 1 → AreWalkReady left (calculus.premises_of (sequent_of s.now) rule) (proofs (map proof_of children.now)) u }
    requires values { AllByRecursion InRange values }
    requires many { length values ≡ s.now.count }
    requires budget { purse.old.budget < 2 ^ 32 }
    ensures work { DoesWork (next (w.denied (suc s.now.count) (first_given (all_given (proofs (map proof_of children.now)))) values) (on_some (λ u. w.walk_first (calculus.premises_of (sequent_of s.now) rule) (proofs (map proof_of children.now)) u))) purse.old (stopped result) purse.new }
    ensures values { (stop : Stop) → result ≡ Ok (Some stop) → AllByRecursion InRange stop.values }
{
    match at(children, 0) {
        Some(child) => {
            match denied(
                alloc,
                s.count + 1,
                child.gives.as_slice(),
                values.as_slice(),
                purse,
            )? {
                Some(more) => step(alloc, s, rule, 0, children, left, more, purse),
                None => Ok(None),
            }
        }
        None => Ok(None),
    }
}

/// The walk from the first child whose constraint is false at the values.
#[cycle(walk)]
fn fork(
    alloc: Global,
    s: &Sequent,
    rule: Pick,
    children: &[Node],
    left: u32,
    values: Items<i128>,
    purse: &mut Purse,
) -> Result<Option<Stop>, StepFault>
    requires room { HasRoom s.now }
    requires few { length children.now < 2 ^ 32 }
    requires given { AllByRecursion (λ x. IsGiven s.now.count (given x)) (map proof_of children.now) }
    requires ready { AreWalkReady left (calculus.premises_of (sequent_of s.now) rule) (proofs (map proof_of children.now)) values }
    requires values { AllByRecursion InRange values }
    requires many { length values ≡ s.now.count }
    requires budget { purse.old.budget < 2 ^ 32 }
    ensures work { DoesWork (w.walk_false s.now.count (calculus.premises_of (sequent_of s.now) rule) (proofs (map proof_of children.now)) values) purse.old (stopped result) purse.new }
    ensures values { (stop : Stop) → result ≡ Ok (Some stop) → AllByRecursion InRange stop.values }
{
    for i in 0..children.len() {
        let child = &children[i];
        match affirmed(
            alloc,
            s.count,
            child.gives.as_slice(),
            values.as_slice(),
            purse,
        )? {
            Some(_) => {}
            None => return step(alloc, s, rule, i as u32, children, left, values, purse),
        }
    }
    Ok(None)
}
