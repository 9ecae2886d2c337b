// Files whose proof is read as a tree, and where others are refused.

use proof_file::{ProofRefusal, read_tree};
use proof_tree::{Conclusion, Tree};
use sequent::Pick;
use std::alloc::{AllocError, Global};
use test_texts::PROOF;

// Two logs and the conclusion use the second part; the first one goes unused.
pub(crate) const USED: &str =
    "princess-proof 2\nparts 2\npart o\npart e0 s1\ncharges 18\ngamma 0\nclose\nlog u1\ngives true\nlog u1\ngives c0 - 3 = 0\nnone u1\n";

/// What a file is: a proof for this many charges, or refused at a place.
#[derive(Clone, Copy, PartialEq, Eq)]
enum Answer {
    Charges(u64),
    Syntax(u64),
    Deep(u64),
    Memory,
}

fn answer_to(alloc: Global, file: &str) -> Answer {
    match read_tree(alloc, file.as_bytes()) {
        Ok(tree) => Answer::Charges(tree.charges),
        Err(ProofRefusal::Syntax(at)) => Answer::Syntax(at),
        Err(ProofRefusal::Deep(at)) => Answer::Deep(at),
        Err(ProofRefusal::Memory) => Answer::Memory,
    }
}

#[test]
fn files_are_read_as_trees_or_refused(rt: HostRuntime) -> Result<(), AllocError> {
    for (file, is) in [
        (PROOF, Answer::Charges(18)),
        (
            "VALID\nconstraint: a - 3 = 0\nsolution: a = 3\nproof:\nprincess-proof 1\ncharges 18\nalpha 0\nclose\nlog\ngives c0 - 3 = 0\ngives c0 - 3 = 0\nsolution 3\n",
            Answer::Charges(18),
        ),
        (
            "princess-proof 1\ncharges 18\nalpha 0\nclose\nlog\ngives c0 - 3 = 0\ngives c0 - 3 = 0\nsolution 3",
            Answer::Syntax(90),
        ),
        (
            "proof:\nprincess-proof 1\ncharges 7\nclose\ngives false\nnone\n",
            Answer::Syntax(40),
        ),
        ("VALID\nproof:", Answer::Syntax(12)),
        ("", Answer::Syntax(0)),
        (USED, Answer::Charges(18)),
        (
            "INVALID\nproof:\nprincess-proof 2\nparts 1\npart e0\ncharges 7\nclose\nlog u0\ngives false\nnone u0\n",
            Answer::Charges(7),
        ),
        (
            "princess-proof 2\nparts 1\npart e0\ncharges 7\nclose\nlog u1\ngives false\nnone\n",
            Answer::Syntax(53),
        ),
    ] {
        assert!(rt; answer_to(rt.alloc(), file) == is);
    }
    Ok(())
}

pub(crate) fn has_two_entries(conclusion: &Conclusion) -> bool {
    match conclusion {
        Conclusion::Solution(_) => false,
        Conclusion::Nothing(log) => log.entries.len() == 2,
    }
}

/// Whether this is the tree of the first text.
fn is_unified(tree: &Tree) -> bool {
    let root = &tree.root;
    let mut same = matches!(root.rule, Pick::Alpha(0)) && root.children.len() == 1;
    for leaf in root.children.as_slice() {
        let closed = matches!(leaf.rule, Pick::Close) && leaf.children.len() == 0;
        same = closed && leaf.gives.len() == 1 && same;
    }
    same && matches!(tree.conclusion, Conclusion::Solution(_))
}

/// Whether this is the tree of the text with parts, whose logs have their entries.
fn owns_its_parts(tree: &Tree) -> bool {
    let root = &tree.root;
    let mut same = matches!(root.rule, Pick::Gamma(0)) && root.log.entries.len() == 2;
    for leaf in root.children.as_slice() {
        same = matches!(leaf.rule, Pick::Close) && leaf.log.entries.len() == 2 && same;
    }
    same && has_two_entries(&tree.conclusion)
}

/// Whether the text is read as its tree.
fn is_read(alloc: Global, text: &str, with_parts: bool) -> bool {
    match read_tree(alloc, text.as_bytes()) {
        Ok(tree) => {
            if with_parts {
                owns_its_parts(&tree)
            } else {
                is_unified(&tree)
            }
        }
        Err(_) => false,
    }
}

#[test]
fn trees_are_as_their_lines(rt: HostRuntime) -> Result<(), AllocError> {
    assert!(rt; is_read(rt.alloc(), PROOF, false) && is_read(rt.alloc(), USED, true));
    Ok(())
}
