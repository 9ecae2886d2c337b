// The search for a proof.

ghost use Rattle.formula.specs.Tree.{form};
ghost use Rattle.formula.specs.Searchable.{IsSearchable};
ghost use Rattle.search.specs.Outcomes.{DecidesAs, EndsAs, IsRun};
ghost use Rattle.search.specs.Rounds.{IsAnswer};
ghost use Rattle.search.specs.Run.{canonical_run, one_round};
ghost use Rattle.search.specs.Walking.{Gets, Makes};
ghost use Rattle.std.specs.Prelude.{◌+◌, ◌<◌, ◌≤◌, ◌^◌};

use super::course::Course;
use super::judge::{Decided, Found, Outcome, conclude, ended, solution, stopped, without_tree};
use super::walk::{Plan, build};
use base_budget::{Purse, StepFault};
use base_limits::BRANCH_LIMIT;
use base_watch::{Event, Walked, Watch};
use formula::Core;
use linear_term::Memory;
use proof_tree::{Run, know_reduced};
use sequent::start;
use std::alloc::Global;
use tree_branch::{Branch, Passed};

/// One round, with this limit on the uses of gamma.
fn one_round<X: Watch>(
    alloc: Global,
    root: &Core,
    constants: u32,
    limit: u32,
    keeps: bool,
    course: &mut Course,
    purse: &mut Purse,
    walked: &mut Walked,
    watch: &mut X,
) -> Result<Option<Found>, StepFault>
    requires searchable { IsSearchable (form root.now) constants }
    requires budget { purse.old.budget < 2 ^ 32 }
    ensures { Makes (IsAnswer keeps (form root.now) constants) (one_round (form root.now) constants limit) purse.old course.old result purse.new course.new }
{
    course.begin_round(limit, alloc);
    let before = purse.spent();
    watch.tell(Event::Round {
        limit,
        steps: before,
    });
    let s = start(alloc, root, constants)?;
    know_reduced(&s);
    let mut branch = Branch::at(alloc, s)?;
    let plan = Plan {
        limit,
        keeps,
        passed: Passed::new(),
    };
    match build(
        alloc,
        &mut branch,
        &plan,
        BRANCH_LIMIT,
        course,
        purse,
        walked,
    )? {
        Some(tree) => {
            let charged = purse.spent() - before;
            let solved = solution(alloc, &tree.constraint, constants, course, purse)?;
            let spent = purse.spent() - before;
            Ok(conclude(root, tree, charged, spent, solved))
        }
        None => Ok(Some(Found::Branch)),
    }
}

/// The rounds of a run, with rising limits: each charges its root, so the budget ends them.
fn all_rounds<X: Watch>(
    alloc: Global,
    root: &Core,
    constants: u32,
    keeps: bool,
    course: &mut Course,
    purse: &mut Purse,
    walked: &mut Walked,
    watch: &mut X,
) -> Result<Found, StepFault>
    requires searchable { IsSearchable (form root.now) constants }
    requires budget { purse.old.budget < 2 ^ 32 }
    requires funds { purse.old.spent ≤ purse.old.budget }
    ensures { Gets (IsAnswer keeps (form root.now) constants) (canonical_run (form root.now) constants purse.old.budget) purse.old course.old result purse.new course.new }
{
    let mut limit: u32 = 0;
    loop {
        if let Some(found) = one_round(
            alloc, root, constants, limit, keeps, course, purse, walked, watch,
        )? {
            return Ok(found);
        }
        watch.tell(Event::Walked(*walked));
        limit += 1;
    }
}

/// The canonical run on what is left in the purse: what it finds or meets, and where it stands then.
fn whole<X: Watch>(
    alloc: Global,
    root: &Core,
    constants: u32,
    keeps: bool,
    purse: &mut Purse,
    watch: &mut X,
) -> (Result<Found, StepFault>, Run)
    requires searchable { IsSearchable (form root.now) constants }
    requires budget { purse.old.budget < 2 ^ 32 }
    ensures { IsRun keeps (form root.now) constants purse.old result.0 result.1 purse.new }
{
    let mut course = Course::new(alloc);
    let before = purse.spent();
    let mut walked = Walked::new();
    let answer = all_rounds(
        alloc,
        root,
        constants,
        keeps,
        &mut course,
        purse,
        &mut walked,
        watch,
    );
    let run = Run {
        round: course.round,
        nodes: course.nodes,
        log: course.log,
        spent: purse.spent() - before,
    };
    walked.pass(before.saturating_add(run.spent));
    watch.tell(Event::Walked(walked));
    (answer, run)
}

/// Searches a proof of the root over its constants: the canonical run on what is left in the purse, and how it ends. Valid
/// has values that satisfy the constraint of the tree; Invalid a constraint that nothing satisfies, and comes only for a root
/// without predicates and functions. Saturated is the same for any other root, where no rule is left that a further round
/// could use more often. Unknown is answered exactly where the run is cut, by the budget or by a number that leaves the range,
/// with the place, or where a branch would have more than 2,000 nodes. The tree's charges are those of the walk that checks it. Who
/// watches is told of each round.
pub fn prove<X: Watch>(
    alloc: Global,
    root: &Core,
    constants: u32,
    purse: &mut Purse,
    watch: &mut X,
) -> Result<Outcome, Memory>
    requires searchable { IsSearchable (form root.now) constants }
    requires budget { purse.old.budget < 2 ^ 32 }
    ensures { EndsAs (form root.now) constants purse.old result purse.new }
{
    let (answer, run) = whole(alloc, root, constants, true, purse, watch);
    match answer {
        Ok(found) => ended(alloc, found, run),
        Err(fault) => {
            let why = stopped(fault)?;
            Ok(Outcome::Unknown { why, run })
        }
    }
}

/// The same without the tree: it keeps the branch where it stands and the constraints that are to be put together, and no more.
pub fn decide<X: Watch>(
    alloc: Global,
    root: &Core,
    constants: u32,
    purse: &mut Purse,
    watch: &mut X,
) -> Result<Decided, Memory>
    requires searchable { IsSearchable (form root.now) constants }
    requires budget { purse.old.budget < 2 ^ 32 }
    ensures { DecidesAs (form root.now) constants purse.old result purse.new }
{
    let (answer, run) = whole(alloc, root, constants, false, purse, watch);
    match answer {
        Ok(found) => Ok(without_tree(found, run)),
        Err(fault) => {
            let why = stopped(fault)?;
            Ok(Decided::Unknown { why, run })
        }
    }
}
