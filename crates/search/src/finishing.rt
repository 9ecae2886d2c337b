// How a node is finished, once its premises have trees.

ghost use Rattle.clause_set.specs.declared.literal.Literal.{Literal};
ghost use Rattle.formula.specs.Sizes.{depth};
ghost use Rattle.tree_branch.specs.Standing.{premises_from, rule_at, standing};
ghost use Rattle.pred_unify.specs.Pairs.{closing_of};
ghost use Rattle.pred_unify.specs.Reading.{HasKinds, sequent_at};
ghost use Rattle.proof_tree.specs.Proof.{Proof, node, proofs};
ghost use Rattle.proof_tree.specs.Views.{proof_of};
ghost use Rattle.base_budget.specs.declared.log.Entry.{Entry};
ghost use Rattle.search.specs.Building.{finished};
ghost use Rattle.search.specs.Run.{has_open_leaf};
ghost use Rattle.search.specs.Walking.{AreGrown, AreKept, IsFinished, IsKeptNode, Makes, proofs_in};
ghost use Rattle.sequent.specs.Leaf as leaves;
ghost use Rattle.sequent.specs.Views.{HasRoom, members_of, sequent_of};
ghost use Rattle.sequent.specs.declared.member.Pick.TheVariants as pick;
ghost use Rattle.std.specs.List.{list_any};
ghost use Rattle.std.specs.Prelude.{◌≡◌, ◌+◌, ◌<◌, ◌≤◌, ◌^◌, Bool, IfOk, List, [], ℕ};

use super::constraint::{made, made_at_leaf};
use super::course::Course;
use super::walk::{Built, Children};
use base_budget::{ElimLog, Purse, StepFault};
use base_watch::Walked;
use clause_set::{Clause, Dnf, Literal, copy_literals};
use linear_term::Memory;
use pred_unify::Leaf;
use proof_tree::Node;
use sequent::Pick;
use sqlite_items::Items;
use std::alloc::Global;
use tree_branch::{Branch, Principal};

/// The clauses as lists of literals.
fn clauses_of(alloc: Global, clauses: &[Clause]) -> Result<Items<Items<Literal>>, Memory>
    ensures { IfOk result (λ cs. cs ≡ clauses.now) }
{
    let mut out = Items::new(alloc);
    for c in clauses {
        out.push(copy_literals(alloc, c.literals())?)?;
    }
    Ok(out)
}

/// The node of these parts.
fn node(rule: Pick, children: Items<Node>, log: ElimLog, gives: Items<Items<Literal>>) -> Node
    ensures { proof_of result ≡ node rule (proofs (proofs_in children)) log.entries gives }
{
    Node {
        rule,
        children,
        log,
        gives,
    }
}

/// The root of these parts, where trees are kept.
fn kept(
    alloc: Global,
    keeps: bool,
    rule: Pick,
    children: Items<Node>,
    log: ElimLog,
    constraint: &Dnf,
) -> Result<Option<Node>, Memory>
    ensures { (xs : List Proof) → AreKept keeps xs children → IfOk result (λ root. IsKeptNode keeps (node rule (proofs xs) log.entries constraint.now) root) }
{
    if !keeps {
        return Ok(None);
    }
    let gives = clauses_of(alloc, constraint.clauses())?;
    Ok(Some(node(rule, children, log, gives)))
}

/// Whether a leaf of the tree with these trees of premises is open.
fn has_open_leaf(branch: &Branch, principal: &Principal, children: &Children) -> bool
    ensures { (keeps : Bool) (xs : List Proof) (log : List Entry) (d : List (List Literal)) → AreGrown keeps (premises_from branch.now principal.now) xs children.now
        → result ≡ has_open_leaf (standing branch.now) (node (rule_at principal.now.shape principal.now.index) (proofs xs) log d) }
{
    if children.constraints.is_empty() {
        branch.has_open_member()
    } else {
        children.has_open
    }
}

/// The node whose premises have these trees. A frame of its own, which the walk's frames below it do not hold.
#[inline(never)]
pub fn finish(
    alloc: Global,
    branch: &Branch,
    principal: &Principal,
    children: Children,
    keeps: bool,
    course: &mut Course,
    purse: &mut Purse,
    walked: &mut Walked,
) -> Result<Option<Built>, StepFault>
    requires room { (standing branch.now).count + 1 < 2 ^ 32 }
    requires budget { purse.old.budget < 2 ^ 32 }
    ensures { (n : ℕ) (xs : List Proof) → AreGrown keeps (premises_from branch.now principal.now) xs children
        → Makes (IsFinished keeps (standing branch.now) xs course.old.nodes course.new.nodes) (finished n (standing branch.now) (rule_at principal.now.shape principal.now.index) xs) purse.old course.old result purse.new course.new }
{
    course.back(alloc);
    let has_open = has_open_leaf(branch, principal, &children);
    let Children {
        nodes,
        constraints,
        ..
    } = children;
    let (constraint, log) = made(alloc, branch, principal, constraints, course, purse)?;
    walked.eliminate(log.entries.len() as u64);
    let root = kept(alloc, keeps, principal.rule(), nodes, log, &constraint)?;
    Ok(Some(Built {
        root,
        constraint,
        has_open,
    }))
}

/// The leaf that is closed, with these members.
pub fn finish_closed(
    alloc: Global,
    leaf: &Leaf,
    has_open: bool,
    keeps: bool,
    course: &mut Course,
    purse: &mut Purse,
    walked: &mut Walked,
) -> Result<Option<Built>, StepFault>
    requires room { HasRoom (sequent_at leaf.now) }
    requires kinds { HasKinds leaf.now }
    requires depth { leaf.now.count + depth (closing_of (sequent_of (sequent_at leaf.now))).value ≤ 2 ^ 32 }
    requires budget { purse.old.budget < 2 ^ 32 }
    requires open { has_open ≡ list_any (λ m. leaves.is_open m.formula) (members_of (sequent_at leaf.now).members) }
    ensures { (n : ℕ) → Makes (IsFinished keeps (sequent_of (sequent_at leaf.now)) [] course.old.nodes course.new.nodes) (finished n (sequent_of (sequent_at leaf.now)) pick.Close []) purse.old course.old result purse.new course.new }
{
    course.back(alloc);
    let (constraint, log) = made_at_leaf(alloc, leaf, course, purse)?;
    walked.eliminate(log.entries.len() as u64);
    let root = kept(
        alloc,
        keeps,
        Pick::Close,
        Items::new(alloc),
        log,
        &constraint,
    )?;
    Ok(Some(Built {
        root,
        constraint,
        has_open,
    }))
}
