// The walk over the lines of a proof, node by node: each node is checked against its sequent before its premises are, and its
// constraint is made again once they have given theirs. One branch serves all nodes: a node enters each premise and leaves it
// once its proof is checked, and the members are copied where a leaf is closed, and nowhere else.

ghost use Rattle.clause_set.specs.declared.literal.Literal.{Literal};
ghost use Rattle.tree_branch.specs.Within.{IsWithin};
ghost use Rattle.tree_branch.specs.Standing.{IsPrincipal, premises_from, rule_at, standing};
ghost use Rattle.proof_tree.specs.Proof as tree;
ghost use Rattle.proof_tree.specs.Proof.{Proof, Proofs};
ghost use Rattle.proof_tree.specs.Walk as walk;
ghost use Rattle.base_budget.specs.declared.log.Entry.{Entry};
ghost use Rattle.sequent.specs.Rules.{applies};
ghost use Rattle.std.specs.Prelude.{◌≡◌, ◌+◌, ◌++◌, length, List, true};
ghost use Rattle.tree_checker.specs.Told.{HasLevels, HaveLevels, told_all, told_lines, told_width};
ghost use Rattle.tree_checker.specs.Walking.{HasWalked, HaveWalked, IfGiven, IsPaid};
ghost use Rattle.proof_grammar.specs.Lines.{last_lines};
ghost use Rattle.proof_grammar.specs.declared.lines.TextLine.{TextLine};

use crate::course::Course;
use crate::leaving::{close, leave};
use crate::reading::read_row;
use base_budget::{Purse, StepFault};
use clause_set::Dnf;
use proof_file::ProofLines;
use sequent::Pick;
use sqlite_items::Items;
use std::alloc::Global;
use tree_branch::{Branch, Principal, principal_fee};

/// Checks the node that comes next, against the sequent where the branch stands: its constraint; nothing at the first thing that
/// is wrong. It has at most `left` levels. Where a constraint comes out, the branch is what it was.
#[cycle(walk)]
fn node<L: ProofLines>(
    alloc: Global,
    lines: &mut L,
    branch: &mut Branch,
    left: u32,
    course: &mut Course,
    purse: &mut Purse,
) -> Result<Option<Dnf>, StepFault>
    requires within { IsWithin left (standing branch.old) }
    requires paid { IsPaid course.old purse.old }
    ensures walk { (x : Proof) (ls : List TextLine) → HasLevels left x → L.coming lines.old (told_lines x ++ ls)
        → HasWalked (standing branch.old) x (L.coming lines.new ls) purse.old course.old result purse.new course.new }
    ensures paid { IfGiven result (λ d. IsPaid course.new purse.new) }
    ensures back { IfGiven result (λ d. branch.new ≡ branch.old) }
{
    if left == 0 {
        return Ok(None);
    }
    match read_row(alloc, lines)? {
        Some((rule, count)) => enter(alloc, lines, branch, rule, count, left - 1, course, purse),
        None => Ok(None),
    }
}

/// Checks a node whose rule has come, with the number of its premises.
#[cycle(walk)]
pub fn enter<L: ProofLines>(
    alloc: Global,
    lines: &mut L,
    branch: &mut Branch,
    rule: Pick,
    count: u32,
    left: u32,
    course: &mut Course,
    purse: &mut Purse,
) -> Result<Option<Dnf>, StepFault>
    requires within { IsWithin (left + 1) (standing branch.old) }
    requires paid { IsPaid course.old purse.old }
    ensures walk { (ns : Proofs) (es : List Entry) (d : List (List Literal)) (ls : List TextLine) → HaveLevels left ns → count ≡ told_width rule (walk.width ns) es → L.coming lines.old (told_all ns ++ (last_lines rule es d ++ ls))
        → HasWalked (standing branch.old) (tree.node rule ns es d) (L.coming lines.new ls) purse.old course.old result purse.new course.new }
    ensures paid { IfGiven result (λ d. IsPaid course.new purse.new) }
    ensures back { IfGiven result (λ d. branch.new ≡ branch.old) }
{
    match branch.principal_of(rule) {
        Some(principal) => grow(alloc, lines, branch, &principal, count, left, course, purse),
        None => close(alloc, lines, branch, rule, count, course, purse),
    }
}

/// Checks a node whose rule has this principal.
#[cycle(walk)]
fn grow<L: ProofLines>(
    alloc: Global,
    lines: &mut L,
    branch: &mut Branch,
    principal: &Principal,
    count: u32,
    left: u32,
    course: &mut Course,
    purse: &mut Purse,
) -> Result<Option<Dnf>, StepFault>
    requires principal { IsPrincipal branch.old principal.now }
    requires applies { applies (standing branch.old) (rule_at principal.now.shape principal.now.index) ≡ true }
    requires within { IsWithin (left + 1) (standing branch.old) }
    requires paid { IsPaid course.old purse.old }
    ensures walk { (ns : Proofs) (es : List Entry) (d : List (List Literal)) (ls : List TextLine) → HaveLevels left ns → count ≡ told_width (rule_at principal.now.shape principal.now.index) (walk.width ns) es
        → L.coming lines.old (told_all ns ++ (last_lines (rule_at principal.now.shape principal.now.index) es d ++ ls))
        → HasWalked (standing branch.old) (tree.node (rule_at principal.now.shape principal.now.index) ns es d) (L.coming lines.new ls) purse.old course.old result purse.new course.new }
    ensures paid { IfGiven result (λ d. IsPaid course.new purse.new) }
    ensures back { IfGiven result (λ d. branch.new ≡ branch.old) }
{
    let number = course.enter();
    if count != branch.width(principal) {
        return Ok(None);
    }
    purse.step(principal_fee(branch, principal))?;
    match premises(alloc, lines, branch, principal, left, course, purse)? {
        Some(ds) => leave(alloc, lines, branch, principal, number, ds, course, purse),
        None => Ok(None),
    }
}

/// Checks the premises of a node, one after another: their constraints. Each is entered, and left once its proof is checked.
#[cycle(walk)]
fn premises<L: ProofLines>(
    alloc: Global,
    lines: &mut L,
    branch: &mut Branch,
    principal: &Principal,
    left: u32,
    course: &mut Course,
    purse: &mut Purse,
) -> Result<Option<Items<Dnf>>, StepFault>
    requires principal { IsPrincipal branch.old principal.now }
    requires within { IsWithin (left + 1) (standing branch.old) }
    requires paid { IsPaid course.old purse.old }
    ensures walk { (ns : Proofs) (ls : List TextLine) → HaveLevels left ns → walk.width ns ≡ length (premises_from branch.old principal.now) → L.coming lines.old (told_all ns ++ ls)
        → HaveWalked (premises_from branch.old principal.now) ns (L.coming lines.new ls) purse.old course.old result purse.new course.new }
    ensures paid { IfGiven result (λ ds. IsPaid course.new purse.new) }
    ensures back { IfGiven result (λ ds. branch.new ≡ branch.old) }
{
    let mut ds = Items::new(alloc);
    for i in 0..branch.width(principal) {
        let entered = branch.enter(alloc, principal, i)?;
        match node(alloc, lines, branch, left, course, purse)? {
            Some(d) => {
                branch.leave(entered);
                ds.push(d)?;
            }
            None => return Ok(None),
        }
    }
    Ok(Some(ds))
}
