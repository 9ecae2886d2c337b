// A check of a proof that is a tree in memory, by the same walk as over the lines of a text.

ghost use Rattle.formula.specs.Tree.{form};
ghost use Rattle.base_limits.specs.Limits.{branch_limit, most_budget};
ghost use Rattle.formula.specs.Searchable.{IsSearchable};
ghost use Rattle.proof_tree.specs.Views.{proof_of};
ghost use Rattle.std.specs.Prelude.{◌≤◌};
ghost use Rattle.tree_checker.specs.Answering.{ChecksAs};
ghost use Rattle.tree_checker.specs.Told.{HasLevels};

use crate::checking::{CheckFault, Checked, check_lines};
use crate::frames::TreeLines;
use formula::Core;
use proof_tree::Tree;
use std::alloc::Global;

/// Whether the tree, of at most 2,000 levels, is a proof of the formula over this many constants: what it says, or the first thing
/// that is wrong.
pub fn check(alloc: Global, root: &Core, constants: u32, tree: &Tree) -> Result<Checked, CheckFault>
    requires searchable { IsSearchable (form root.now) constants }
    requires charges { tree.now.charges ≤ most_budget }
    ensures { HasLevels branch_limit (proof_of tree.now.root) → ChecksAs (form root.now) constants (proof_of tree.now.root) tree.now.conclusion tree.now.charges result }
{
    let mut lines = TreeLines::new(alloc, tree);
    check_lines(alloc, root, constants, tree.charges, &mut lines)
}
