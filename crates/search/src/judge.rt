// How a search ends.

ghost use Rattle.elim_laws.specs.Whole.{AreOver};
ghost use Rattle.formula.specs.Tree.{form};
ghost use Rattle.base_budget.specs.Followed.{Followed};
ghost use Rattle.search.specs.Course.{noted};
ghost use Rattle.search.specs.Outcomes.{stopped_by};
ghost use Rattle.proof_tree.specs.declared.node.Node.{Node};
ghost use Rattle.search.specs.Rounds.{HasRoot, IsOutcome, decided_of, found_by, solving_of};
ghost use Rattle.std.specs.Prelude.{◌≡◌, ◌<◌, ◌^◌, IfOk, IsSome, Some};

use super::course::Course;
use super::walk::Built;
use base_budget::{ElimLog, Purse, StepFault};
use clause_set::Dnf;
use formula::{Core, is_pure};
use linear_term::Memory;
use parameter_solver::{Solved, solve};
use proof_tree::{Conclusion, Run, Tree, Why};
use sqlite_items::Items;
use std::alloc::Global;

/// How a search ended: with values that satisfy the constraint of its tree; with a constraint that nothing satisfies, of a
/// formula without predicates and functions, or of another one in whose tree no rule is left that a further round could use
/// more often; or without an answer, with why and where.
#[derive(Drop)]
pub enum Outcome {
    Valid {
        constraint: Dnf,
        solution: Items<i128>,
        tree: Tree,
    },
    Invalid {
        constraint: Dnf,
        tree: Tree,
    },
    Saturated {
        constraint: Dnf,
        tree: Tree,
    },
    Unknown {
        why: Why,
        run: Run,
    },
}

/// How a search ended, without its tree: the constraint that the tree gave, and the values.
#[derive(Drop)]
pub enum Decided {
    Valid {
        constraint: Dnf,
        solution: Items<i128>,
    },
    Invalid {
        constraint: Dnf,
    },
    Saturated {
        constraint: Dnf,
    },
    Unknown {
        why: Why,
        run: Run,
    },
}

/// The values that satisfy a constraint best, found in a log of their own.
pub fn solution(
    alloc: Global,
    d: &Dnf,
    constants: u32,
    course: &mut Course,
    purse: &mut Purse,
) -> Result<Solved, StepFault>
    requires over { AreOver constants d.now }
    requires budget { purse.old.budget < 2 ^ 32 }
    ensures { Followed noted (solving_of constants d.now) purse.old course.old result purse.new course.new }
{
    course.begin_log(alloc);
    match solve(alloc, d, constants, purse) {
        Ok(solved) => Ok(solved),
        Err(fault) => Err(course.cut(fault)),
    }
}

/// What a run finds that is not cut.
#[derive(Drop)]
pub enum Found {
    /// Values satisfy the constraint of the tree, which charges so much.
    Valid(Built, u64, Items<i128>),
    /// The log takes all names out of the constraint of the tree, which leaves false: so much is charged for both.
    Invalid(Built, u64, ElimLog),
    /// The same of a formula that is not pure, where no leaf of the tree is open: so much is charged for the tree, as the walk
    /// that checks it stops where the formula is not pure.
    Saturated(Built, u64, ElimLog),
    /// A branch would have got too many nodes.
    Branch,
}

/// What the solution of its tree's constraint says of a round: None where a further round is to come.
pub fn conclude(root: &Core, tree: Built, charged: u64, spent: u64, solved: Solved) -> Option<Found>
    ensures { result ≡ found_by (form root.now) tree charged spent solved }
{
    match solved {
        Solved::Values(values) => Some(Found::Valid(tree, charged, values)),
        Solved::None(log) => {
            if is_pure(root) {
                Some(Found::Invalid(tree, spent, log))
            } else if tree.has_open {
                None
            } else {
                Some(Found::Saturated(tree, charged, log))
            }
        }
    }
}

/// The constraint of a tree that was kept, and the proof that it is with these charges and this conclusion.
fn concluded(built: Built, charges: u64, conclusion: Conclusion) -> (Dnf, Tree)
    requires { IsSome built.root }
    ensures { (x : Node) × (built.root ≡ Some x) × (result.0 ≡ built.constraint) × (result.1 ≡ record { charges = charges; root = x; conclusion = conclusion }) }
{
    let Built {
        root,
        constraint,
        ..
    } = built;
    let Some(root) = root else { unreachable!() };
    let tree = Tree {
        charges,
        root,
        conclusion,
    };
    (constraint, tree)
}

/// The outcome of a run that kept its trees, found this, and stood there.
pub fn ended(alloc: Global, found: Found, run: Run) -> Result<Outcome, Memory>
    requires { HasRoot found }
    ensures { IfOk result (λ o. IsOutcome found run o) }
{
    match found {
        Found::Valid(built, charges, values) => {
            let solution = Items::from_slice(alloc, values.as_slice())?;
            let (constraint, tree) = concluded(built, charges, Conclusion::Solution(values));
            Ok(Outcome::Valid {
                constraint,
                solution,
                tree,
            })
        }
        Found::Invalid(built, charges, log) => {
            let (constraint, tree) = concluded(built, charges, Conclusion::Nothing(log));
            Ok(Outcome::Invalid { constraint, tree })
        }
        Found::Saturated(built, charges, log) => {
            let (constraint, tree) = concluded(built, charges, Conclusion::Nothing(log));
            Ok(Outcome::Saturated { constraint, tree })
        }
        Found::Branch => Ok(Outcome::Unknown {
            why: Why::Branch,
            run,
        }),
    }
}

/// The outcome of a run that found this, and stood there, without its tree.
pub fn without_tree(found: Found, run: Run) -> Decided
    ensures { result ≡ decided_of found run }
{
    match found {
        Found::Valid(tree, _, solution) => Decided::Valid {
            constraint: tree.constraint,
            solution,
        },
        Found::Invalid(tree, _, _) => Decided::Invalid {
            constraint: tree.constraint,
        },
        Found::Saturated(tree, _, _) => Decided::Saturated {
            constraint: tree.constraint,
        },
        Found::Branch => Decided::Unknown {
            why: Why::Branch,
            run,
        },
    }
}

/// Why a run was cut that has met this.
pub fn stopped(fault: StepFault) -> Result<Why, Memory>
    ensures { result ≡ stopped_by fault }
{
    match fault {
        StepFault::Steps => Ok(Why::Steps),
        StepFault::Overflow(place) => Ok(Why::Overflow(place)),
        StepFault::Memory => Err(Memory),
    }
}
