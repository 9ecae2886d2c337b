// A check of a whole proof: the walk over its tree, and then its conclusion.

ghost use Rattle.formula.specs.Tree.{form};
ghost use Rattle.base_limits.specs.Limits.{branch_limit, most_budget};
ghost use Rattle.formula.specs.Searchable.{IsSearchable};
ghost use Rattle.tree_branch.specs.Standing.{standing};
ghost use Rattle.proof_tree.specs.Proof.{Proof};
ghost use Rattle.proof_tree.specs.Proves as proves;
ghost use Rattle.proof_tree.specs.declared.node.Conclusion as tree;
ghost use Rattle.std.specs.Prelude.{◌≡◌, ◌++◌, ◌∷◌, ◌≤◌, [], IfOk};
ghost use Rattle.tree_checker.specs.Answering.{ChecksAs, HasChecked, HasConcluded, answer_at};
ghost use Rattle.tree_checker.specs.Told.{HasLevels, told_lines};
ghost use Rattle.tree_checker.specs.Walking.{IsPaid};
ghost use Rattle.proof_grammar.specs.Lines as text;
ghost use Rattle.proof_grammar.specs.Owed.{Shallow};
ghost use Rattle.proof_grammar.specs.declared.lines.TextLine.TheVariants as w;
ghost use Rattle.proof_grammar.specs.Shaped.{IsShapedNode};

use crate::conclusion::{conclude, is_exact};
use crate::course::Course;
use crate::reading::{read_end, read_row};
use crate::walk::enter;
use base_budget::{Purse, StepFault};
use base_limits::BRANCH_LIMIT;
use clause_set::Dnf;
use formula::Core;
use linear_term::{Memory, Place};
use proof_file::ProofLines;
use proof_tree::Verdict;
use sequent::{Pick, start};
use std::alloc::Global;
use tree_branch::Branch;

/// What a check of a proof accepts: the constraint of the root, whether that is exact, and what the proof says.
#[derive(Drop)]
pub struct Checked {
    pub constraint: Dnf,
    pub exact: bool,
    pub verdict: Verdict,
}

/// The first thing that is wrong with a proof. The number is that of the node, in preorder from 0; the conclusion has the number
/// after the last node.
#[derive(Clone, Copy)]
pub enum CheckFault {
    /// The rule does not apply, the premises are not as many as it has, the log names a rule that does not apply or is not used
    /// up, or the constraint or the conclusion is not what follows.
    Node(u64),
    /// A number leaves the range.
    Range(u64, Place),
    /// A charge passes the charges of the proof.
    Cost(u64),
    Memory,
}

/// Whether these lines are a proof of the formula over this many constants that charges no more than this: what it says, or the first
/// thing that is wrong. They may be those of a text, and those in which a walk is told of any proof of at most 2,000 levels.
pub fn check_lines<L: ProofLines>(
    alloc: Global,
    root: &Core,
    constants: u32,
    charges: u64,
    lines: &mut L,
) -> Result<Checked, CheckFault>
    requires searchable { IsSearchable (form root.now) constants }
    requires charges { charges ≤ most_budget }
    ensures read { (x : Proof) (c : tree.Conclusion) → IsShapedNode Shallow 1 x → L.coming lines.old (text.lines x ++ w.End c ∷ []) → ChecksAs (form root.now) constants x c charges result }
    ensures told { (x : Proof) (c : tree.Conclusion) → HasLevels branch_limit x → L.coming lines.old (told_lines x ++ w.End c ∷ []) → ChecksAs (form root.now) constants x c charges result }
{
    let mut course = Course::new();
    let mut purse = Purse::new(charges);
    let ended = walk_proof(alloc, root, constants, lines, &mut course, &mut purse);
    answer(course.hand, ended)
}

/// The answer at the node at hand.
fn answer(hand: u64, ended: Result<Option<Checked>, StepFault>) -> Result<Checked, CheckFault>
    ensures { result ≡ answer_at hand ended }
{
    match ended {
        Ok(Some(checked)) => Ok(checked),
        Ok(None) => Err(CheckFault::Node(hand)),
        Err(StepFault::Steps) => Err(CheckFault::Cost(hand)),
        Err(StepFault::Overflow(place)) => Err(CheckFault::Range(hand, place)),
        Err(StepFault::Memory) => Err(CheckFault::Memory),
    }
}

/// The branch at the root.
fn at_root(alloc: Global, root: &Core, constants: u32) -> Result<Branch, Memory>
    ensures { IfOk result (λ b. standing b ≡ proves.start (form root.now) constants) }
{
    let s = start(alloc, root, constants)?;
    Branch::at(alloc, s)
}

/// The walk over the tree, and then the conclusion.
fn walk_proof<L: ProofLines>(
    alloc: Global,
    root: &Core,
    constants: u32,
    lines: &mut L,
    course: &mut Course,
    purse: &mut Purse,
) -> Result<Option<Checked>, StepFault>
    requires searchable { IsSearchable (form root.now) constants }
    requires first { course.old.nodes ≡ 0 }
    requires paid { IsPaid course.old purse.old }
    ensures { (x : Proof) (c : tree.Conclusion) → HasLevels branch_limit x → L.coming lines.old (told_lines x ++ w.End c ∷ [])
        → HasChecked (form root.now) constants x c purse.old course.old.hand result purse.new course.new }
{
    let mut branch = at_root(alloc, root, constants)?;
    match read_row(alloc, lines)? {
        Some((rule, count)) => match enter(
            alloc,
            lines,
            &mut branch,
            rule,
            count,
            BRANCH_LIMIT - 1,
            course,
            purse,
        )? {
            Some(d) => end(alloc, root, constants, rule, d, lines, course, purse),
            None => Ok(None),
        },
        None => Ok(None),
    }
}

/// The conclusion of a proof whose root has this rule and this constraint.
fn end<L: ProofLines>(
    alloc: Global,
    root: &Core,
    constants: u32,
    rule: Pick,
    d: Dnf,
    lines: &mut L,
    course: &mut Course,
    purse: &mut Purse,
) -> Result<Option<Checked>, StepFault>
    ensures { (c : tree.Conclusion) → L.coming lines.old (w.End c ∷ []) → HasConcluded (form root.now) constants rule c d purse.old course.old result purse.new course.new }
{
    if !read_end(alloc, lines)? {
        return Ok(None);
    }
    course.conclude();
    match conclude(alloc, root, constants, rule, lines.conclusion(), &d, purse)? {
        Some(verdict) => Ok(Some(Checked {
            constraint: d,
            exact: is_exact(root, rule),
            verdict,
        })),
        None => Ok(None),
    }
}
