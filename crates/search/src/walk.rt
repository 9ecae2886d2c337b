// The trees of a round, depth first: one branch serves them all. A node takes its principal out of it and adds its new members
// after, and what a premise did is undone when it is left; where a leaf is closed, its members are read where they lie.
// Where trees are not kept, all that a finished node leaves is its constraint and whether a leaf below it is open.

ghost use Rattle.tree_branch.specs.Passed.{IsPassed};
ghost use Rattle.tree_branch.specs.Standing.{IsPrincipal, premises_from, rule_at, standing};
ghost use Rattle.proof_tree.specs.Proof.{Proof};
ghost use Rattle.base_budget.specs.Trace.{Traced};
ghost use Rattle.search.specs.Building.{all_built, built, entered};
ghost use Rattle.search.specs.Walking.{AreNumbered, IfBuilt, IsNumbered, Makes, listed};
ghost use Rattle.tree_branch.specs.Within.{IsWithin};
ghost use Rattle.sequent.specs.Sequent as q;
ghost use Rattle.sequent.specs.declared.member.Pick.TheVariants as pick;
ghost use Rattle.std.specs.Prelude.{◌≡◌, ◌+◌, ◌++◌, ◌<◌, ◌≤◌, ◌^◌, ◌||◌, ◌∷◌, Option, OnOk, [], false, ℕ};

use super::constraints::Constraints;
use super::course::Course;
use super::finishing::{finish, finish_closed};
use base_budget::{Purse, StepFault};
use base_watch::Walked;
use clause_set::Dnf;
use linear_term::Memory;
use pred_unify::Leaf;
use proof_tree::Node;
use sqlite_items::Items;
use std::alloc::Global;
use tree_branch::{Branch, Passed, Principal, leaf_fee, principal_fee};

/// How a round goes on below a node: its limit on the uses of gamma, whether trees are kept, and which members from the front
/// are known to fit no rule.
#[derive(Drop)]
pub struct Plan {
    pub limit: u32,
    pub keeps: bool,
    pub passed: Passed,
}

/// A tree: its root where trees are kept, the constraint of that, and whether a leaf is open.
#[derive(Drop)]
pub struct Built {
    pub root: Option<Node>,
    pub constraint: Dnf,
    pub has_open: bool,
}

/// The trees of a node's premises where trees are kept, their constraints, and whether a leaf is open.
#[derive(Drop)]
pub struct Children {
    pub nodes: Items<Node>,
    pub constraints: Constraints,
    pub has_open: bool,
}

impl Children {
    /// No tree.
    fn new(alloc: Global) -> Children
        ensures { result ≡ record { nodes = []; constraints = []; has_open = false } }
    {
        Children {
            nodes: Items::new(alloc),
            constraints: Constraints::new(alloc),
            has_open: false,
        }
    }

    /// One more tree.
    fn push(&mut self, child: Built) -> Result<(), Memory>
        ensures nodes { OnOk result (self.new.nodes ≡ self.old.nodes ++ listed child.root) }
        ensures constraints { OnOk result (self.new.constraints ≡ self.old.constraints ++ child.constraint ∷ []) }
        ensures has_open { OnOk result (self.new.has_open ≡ (self.old.has_open || child.has_open)) }
    {
        let Built {
            root,
            constraint,
            has_open,
        } = child;
        if let Some(node) = root {
            self.nodes.push(node)?;
        }
        self.constraints.push(constraint)?;
        self.has_open = self.has_open || has_open;
        Ok(())
    }
}

/// The canonical tree of the sequent where the branch stands, at the limit of the plan; none where a branch has more than
/// `left` nodes. The nodes are numbered as they are entered. Where there is a tree, the branch is what it was.
#[cycle(build)]
pub fn build(
    alloc: Global,
    branch: &mut Branch,
    plan: &Plan,
    left: u32,
    course: &mut Course,
    purse: &mut Purse,
    walked: &mut Walked,
) -> Result<Option<Built>, StepFault>
    requires within { IsWithin left (standing branch.old) }
    requires passed { IsPassed plan.now.limit branch.old plan.now.passed }
    requires budget { purse.old.budget < 2 ^ 32 }
    requires funds { purse.old.spent ≤ purse.old.budget }
    requires paid { course.old.nodes ≤ purse.old.spent }
    ensures work { Makes (IsNumbered plan.now.keeps (standing branch.old) course.old.nodes course.new.nodes purse.new.spent) (built plan.now.limit left course.old.nodes (standing branch.old)) purse.old course.old result purse.new course.new }
    ensures back { IfBuilt result (λ b. branch.new ≡ branch.old) }
{
    if left == 0 {
        return Ok(None);
    }
    let plan = Plan {
        limit: plan.limit,
        keeps: plan.keeps,
        passed: branch.pass(plan.limit, &plan.passed),
    };
    match branch.principal(plan.limit, &plan.passed) {
        Some(principal) => grow(
            alloc,
            branch,
            &principal,
            &plan,
            left - 1,
            course,
            purse,
            walked,
        ),
        None => close(alloc, branch, plan.keeps, course, purse, walked),
    }
}

/// The tree of a leaf that is closed. A frame of its own, which the walk's frames below it do not hold.
#[inline(never)]
fn close(
    alloc: Global,
    branch: &Branch,
    keeps: bool,
    course: &mut Course,
    purse: &mut Purse,
    walked: &mut Walked,
) -> Result<Option<Built>, StepFault>
    requires within { (left : ℕ) × IsWithin left (standing branch.now) }
    requires budget { purse.old.budget < 2 ^ 32 }
    requires funds { purse.old.spent ≤ purse.old.budget }
    requires paid { course.old.nodes ≤ purse.old.spent }
    ensures { (f : ℕ → q.Sequent → Traced (Option Proof)) → Makes (IsNumbered keeps (standing branch.now) course.old.nodes course.new.nodes purse.new.spent) (entered f course.old.nodes (standing branch.now) pick.Close) purse.old course.old result purse.new course.new }
{
    course.enter(alloc);
    walked.enter_leaf(purse.spent());
    let members = branch.members(alloc)?;
    let leaf = Leaf::of(alloc, members, branch.count())?;
    purse.step(leaf_fee(&leaf))?;
    finish_closed(
        alloc,
        &leaf,
        branch.has_open_member(),
        keeps,
        course,
        purse,
        walked,
    )
}

/// The canonical tree whose root has the rule with this principal.
#[cycle(build)]
fn grow(
    alloc: Global,
    branch: &mut Branch,
    principal: &Principal,
    plan: &Plan,
    left: u32,
    course: &mut Course,
    purse: &mut Purse,
    walked: &mut Walked,
) -> Result<Option<Built>, StepFault>
    requires principal { IsPrincipal branch.old principal.now }
    requires passed { IsPassed plan.now.limit branch.old plan.now.passed }
    requires behind { plan.now.passed.count ≤ principal.now.index }
    requires within { IsWithin (left + 1) (standing branch.old) }
    requires budget { purse.old.budget < 2 ^ 32 }
    requires funds { purse.old.spent ≤ purse.old.budget }
    requires paid { course.old.nodes ≤ purse.old.spent }
    ensures work { Makes (IsNumbered plan.now.keeps (standing branch.old) course.old.nodes course.new.nodes purse.new.spent) (entered (built plan.now.limit left) course.old.nodes (standing branch.old) (rule_at principal.now.shape principal.now.index)) purse.old course.old result purse.new course.new }
    ensures back { IfBuilt result (λ b. branch.new ≡ branch.old) }
{
    course.enter(alloc);
    walked.enter(purse.spent());
    purse.step(principal_fee(branch, principal))?;
    match build_all(alloc, branch, principal, plan, left, course, purse, walked)? {
        Some(children) => finish(
            alloc, branch, principal, children, plan.keeps, course, purse, walked,
        ),
        None => Ok(None),
    }
}

/// The canonical trees of the premises: each is entered, and left once it has its tree.
#[cycle(build)]
fn build_all(
    alloc: Global,
    branch: &mut Branch,
    principal: &Principal,
    plan: &Plan,
    left: u32,
    course: &mut Course,
    purse: &mut Purse,
    walked: &mut Walked,
) -> Result<Option<Children>, StepFault>
    requires principal { IsPrincipal branch.old principal.now }
    requires passed { IsPassed plan.now.limit branch.old plan.now.passed }
    requires behind { plan.now.passed.count ≤ principal.now.index }
    requires within { IsWithin (left + 1) (standing branch.old) }
    requires budget { purse.old.budget < 2 ^ 32 }
    requires funds { purse.old.spent ≤ purse.old.budget }
    requires paid { course.old.nodes ≤ purse.old.spent }
    ensures work { Makes (AreNumbered plan.now.keeps (premises_from branch.old principal.now) course.old.nodes course.new.nodes purse.new.spent) (all_built (built plan.now.limit left) course.old.nodes (premises_from branch.old principal.now) []) purse.old course.old result purse.new course.new }
    ensures back { IfBuilt result (λ c. branch.new ≡ branch.old) }
{
    let mut children = Children::new(alloc);
    for i in 0..branch.width(principal) {
        let entered = branch.enter(alloc, principal, i)?;
        match build(alloc, branch, plan, left, course, purse, walked)? {
            Some(child) => {
                branch.leave(entered);
                children.push(child)?;
            }
            None => return Ok(None),
        }
    }
    Ok(Some(children))
}
