// What a check of a tree answers.

use crate::asked::Asked;
use base_limits::MOST_BUDGET;
use proof_tree::{Tree, Verdict};
use std::alloc::Global;
use tree_checker::{CheckFault, Checked, check};

/// What a check answers.
#[derive(Clone, Copy, PartialEq, Eq)]
pub(crate) enum Told {
    Valid,
    Invalid,
    Node(u64),
    Range(u64),
    Cost(u64),
    Memory,
    Syntax(u64),
    Deep(u64),
    /// No check is asked: the tree charges more than a proof may.
    Unasked,
}

fn accepted(checked: &Checked) -> Told {
    match checked.verdict {
        Verdict::Valid(_) => Told::Valid,
        Verdict::Invalid => Told::Invalid,
    }
}

/// The answer to a tree.
#[tactic(auto, using(crate::proofs::Limits::limits))]
pub(crate) fn told_of_tree(alloc: Global, asked: Asked, tree: &Tree) -> Told {
    if tree.charges > MOST_BUDGET {
        return Told::Unasked;
    }
    let Ok(root) = asked.root(alloc) else {
        return Told::Memory;
    };
    match check(alloc, &root, asked.constants(), tree) {
        Ok(checked) => accepted(&checked),
        Err(CheckFault::Node(n)) => Told::Node(n),
        Err(CheckFault::Range(n, _)) => Told::Range(n),
        Err(CheckFault::Cost(n)) => Told::Cost(n),
        Err(CheckFault::Memory) => Told::Memory,
    }
}
