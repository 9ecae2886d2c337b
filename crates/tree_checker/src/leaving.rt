// How the walk leaves a node: its log and its constraint come, and the constraint is made again.

ghost use Rattle.clause_set.specs.declared.literal.Literal.{Literal};
ghost use Rattle.tree_branch.specs.Within.{IsWithin};
ghost use Rattle.tree_branch.specs.Standing.{rule_at, standing};
ghost use Rattle.pred_unify.specs.Reading.{HasKinds, sequent_at};
ghost use Rattle.proof_tree.specs.Proof as tree;
ghost use Rattle.proof_tree.specs.Proof.{Proofs};
ghost use Rattle.proof_tree.specs.Walk as walk;
ghost use Rattle.proof_tree.specs.Walk.{on_some};
ghost use Rattle.base_budget.specs.Followed.{Followed};
ghost use Rattle.base_budget.specs.Trace.{Funds};
ghost use Rattle.base_budget.specs.declared.log.Entry.{Entry};
ghost use Rattle.sequent.specs.Rules.{applies, place};
ghost use Rattle.sequent.specs.Views.{sequent_of};
ghost use Rattle.sequent.specs.declared.member.Pick.TheVariants as pick;
ghost use Rattle.std.specs.Prelude.{◌≡◌, ◌&&◌, ◌++◌, [], false, is_some, List, Ok, IfSome, ℕ};
ghost use Rattle.tree_checker.specs.Hand.{at_node};
ghost use Rattle.tree_checker.specs.Told.{told_all, told_width};
ghost use Rattle.tree_checker.specs.Walking.{HasLeft, HasWalked, IfGiven, IsPaid};
ghost use Rattle.proof_grammar.specs.Lines.{last_lines};
ghost use Rattle.proof_grammar.specs.declared.lines.TextLine.{TextLine};

use crate::constraints::{redo, redo_leaf};
use crate::course::Course;
use crate::nodes::is_leaf;
use crate::reading::read_last;
use crate::same::is_same;
use base_budget::{Purse, StepFault};
use clause_set::{Dnf, Literal};
use pred_unify::Leaf;
use proof_file::ProofLines;
use sequent::Pick;
use sqlite_items::Items;
use std::alloc::Global;
use tree_branch::{Branch, Principal, leaf_fee};

/// What was made again, where that is what the node gives.
fn confirmed(made: Option<Dnf>, gives: &[Items<Literal>]) -> Option<Dnf>
    ensures work { (b : Funds) (n : ℕ) → Followed at_node (on_some (walk.confirmed gives.now) made) b n (Ok result) b n }
    ensures same { IfSome result (λ c. c ≡ gives.now) }
{
    match made {
        Some(d) => {
            if is_same(d.clauses(), gives) {
                Some(d)
            } else {
                None
            }
        }
        None => None,
    }
}

/// Leaves a node whose premises gave these constraints. A frame of its own, which the walk's frames below it do not hold.
#[inline(never)]
pub fn leave<L: ProofLines>(
    alloc: Global,
    lines: &mut L,
    branch: &Branch,
    principal: &Principal,
    number: u64,
    ds: Items<Dnf>,
    course: &mut Course,
    purse: &mut Purse,
) -> Result<Option<Dnf>, StepFault>
    requires within { (left : ℕ) × IsWithin left (standing branch.now) }
    requires paid { IsPaid course.old purse.old }
    ensures walk { (es : List Entry) (d : List (List Literal)) (ls : List TextLine) → (walk.eliminates (rule_at principal.now.shape principal.now.index) ≡ false → es ≡ [])
        → L.coming lines.old (last_lines (rule_at principal.now.shape principal.now.index) es d ++ ls)
        → HasLeft number (standing branch.now) (rule_at principal.now.shape principal.now.index) es d ds (L.coming lines.new ls) purse.old course.old result purse.new course.new }
    ensures nodes { course.new.nodes ≡ course.old.nodes }
    ensures paid { IfGiven result (λ c. IsPaid course.new purse.new) }
{
    course.back(number);
    match read_last(alloc, lines, principal.rule())? {
        Some(gives) => {
            let made = redo(alloc, branch, principal, ds, lines.log(), purse)?;
            Ok(confirmed(made, gives.as_slice()))
        }
        None => Ok(None),
    }
}

/// Leaves a leaf that is closed. Its members are read where they lie.
fn leave_leaf<L: ProofLines>(
    alloc: Global,
    lines: &mut L,
    leaf: &Leaf,
    number: u64,
    course: &mut Course,
    purse: &mut Purse,
) -> Result<Option<Dnf>, StepFault>
    requires within { (left : ℕ) × IsWithin left (sequent_of (sequent_at leaf.now)) }
    requires kinds { HasKinds leaf.now }
    requires paid { IsPaid course.old purse.old }
    ensures walk { (es : List Entry) (d : List (List Literal)) (ls : List TextLine) → L.coming lines.old (last_lines pick.Close es d ++ ls)
        → HasLeft number (sequent_of (sequent_at leaf.now)) pick.Close es d [] (L.coming lines.new ls) purse.old course.old result purse.new course.new }
    ensures nodes { course.new.nodes ≡ course.old.nodes }
    ensures paid { IfGiven result (λ c. IsPaid course.new purse.new) }
{
    course.back(number);
    match read_last(alloc, lines, Pick::Close)? {
        Some(gives) => {
            let made = redo_leaf(alloc, leaf, lines.log(), purse)?;
            Ok(confirmed(made, gives.as_slice()))
        }
        None => Ok(None),
    }
}

/// Checks a node for whose rule there is no principal: a leaf that is closed. A frame of its own, as that of `leave`.
#[inline(never)]
pub fn close<L: ProofLines>(
    alloc: Global,
    lines: &mut L,
    branch: &Branch,
    rule: Pick,
    count: u32,
    course: &mut Course,
    purse: &mut Purse,
) -> Result<Option<Dnf>, StepFault>
    requires within { (left : ℕ) × IsWithin left (standing branch.now) }
    requires lone { (applies (standing branch.now) rule && is_some (place rule)) ≡ false }
    requires paid { IsPaid course.old purse.old }
    ensures walk { (ns : Proofs) (es : List Entry) (d : List (List Literal)) (ls : List TextLine) → count ≡ told_width rule (walk.width ns) es → L.coming lines.old (told_all ns ++ (last_lines rule es d ++ ls))
        → HasWalked (standing branch.now) (tree.node rule ns es d) (L.coming lines.new ls) purse.old course.old result purse.new course.new }
    ensures paid { IfGiven result (λ d. IsPaid course.new purse.new) }
{
    let number = course.enter();
    if !is_leaf(rule, count) {
        return Ok(None);
    }
    let members = branch.members(alloc)?;
    let leaf = Leaf::of(alloc, members, branch.count())?;
    purse.step(leaf_fee(&leaf))?;
    leave_leaf(alloc, lines, &leaf, number, course, purse)
}
