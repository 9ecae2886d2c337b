// Proof trees as values.

ghost use Rattle.std.specs.Prelude.{◌≡◌, IfOk};

use base_budget::ElimLog;
use clause_set::{Literal, copy_literals};
use linear_term::Memory;
use sequent::Pick;
use sqlite_items::Items;
use std::alloc::Global;

/// A rule with the place of its principal, the trees of its premises, the log of what it eliminates, and its constraint:
/// clauses as lists of literals, which a stranger may have written out of form.
#[derive(Drop)]
pub struct Node {
    pub rule: Pick,
    pub children: Items<Node>,
    pub log: ElimLog,
    pub gives: Items<Items<Literal>>,
}

/// What follows from the constraint of the root: values of the existential constants that satisfy it, or the log that takes
/// all names out of it and leaves false.
#[derive(Drop)]
pub enum Conclusion {
    Solution(Items<i128>),
    Nothing(ElimLog),
}

/// A proof: its tree, its conclusion, and the charges that checking the tree may cost.
#[derive(Drop)]
pub struct Tree {
    pub charges: u64,
    pub root: Node,
    pub conclusion: Conclusion,
}

/// The same clauses once more.
pub fn copy_clauses(
    alloc: Global,
    clauses: &[Items<Literal>],
) -> Result<Items<Items<Literal>>, Memory>
    ensures { IfOk result (λ cs. cs ≡ clauses.now) }
{
    let mut out = Items::new(alloc);
    for c in clauses {
        out.push(copy_literals(alloc, c.as_slice())?)?;
    }
    Ok(out)
}

impl Conclusion {
    /// The same conclusion once more.
    pub fn copy(&self, alloc: Global) -> Result<Conclusion, Memory>
        ensures { IfOk result (λ c. c ≡ self.now) }
    {
        match self {
            Conclusion::Solution(values) => {
                Ok(Conclusion::Solution(Items::from_slice(alloc, values.as_slice())?))
            }
            Conclusion::Nothing(log) => Ok(Conclusion::Nothing(log.copy(alloc)?)),
        }
    }
}
