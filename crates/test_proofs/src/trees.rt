// Proofs that are checked as trees in memory, and a tree that no text can say.

use crate::asked::Asked;
use crate::telling::{Told, told_of_tree};
use base_budget::Entry;
use linear_term::Memory;
use proof_file::{ProofRefusal, read_tree};
use proof_tree::Tree;
use std::alloc::{AllocError, Global};
use std::test::Fail;
use test_texts::{deep, proof};

// A proof that charges 9; it gives false, so no solution follows.
const LINES: &str =
    "gamma 0\nalpha 0\nclose\nlog\ngives false\ngives false\nlog\ngives false\nsolution\n";

fn told_of_refusal(refusal: ProofRefusal) -> Told {
    match refusal {
        ProofRefusal::Syntax(at) => Told::Syntax(at),
        ProofRefusal::Deep(at) => Told::Deep(at),
        ProofRefusal::Memory => Told::Memory,
    }
}

/// The answer to the tree of a proof's text.
fn told_by_tree(alloc: Global, asked: Asked, text: &str) -> Told {
    match read_tree(alloc, text.as_bytes()) {
        Ok(tree) => told_of_tree(alloc, asked, &tree),
        Err(refusal) => told_of_refusal(refusal),
    }
}

/// The answer to the tree of a proof that may charge so much, of these lines.
fn told_of_lines(
    alloc: Global,
    asked: Asked,
    charges: &str,
    lines: &str,
) -> Result<Told, AllocError> {
    let text = proof(alloc, charges, lines)?;
    Ok(told_by_tree(alloc, asked, text.as_str()))
}

/// The answer to a tree of three levels and more.
fn told_of_deep(alloc: Global, more: u32) -> Result<Told, AllocError> {
    let lines = deep(alloc, more, "false", "log\ngives false\n")?;
    told_of_lines(alloc, Asked::Somewhere, "1000000", lines.as_str())
}

/// Puts an entry into the log of the first premise, where none can stand.
fn put_entry(tree: &mut Tree) -> Result<(), Memory> {
    if let Some(mut alpha) = tree.root.children.pop() {
        alpha.log.entries.push(Entry::OneSided)?;
        tree.root.children.push(alpha)?;
    }
    Ok(())
}

/// The answer to the tree of the lines above with an entry at its second node.
fn told_with_entry(alloc: Global) -> Result<Told, Memory> {
    let text = proof(alloc, "9", LINES)?;
    match read_tree(alloc, text.as_bytes()) {
        Ok(mut tree) => {
            put_entry(&mut tree)?;
            Ok(told_of_tree(alloc, Asked::Somewhere, &tree))
        }
        Err(refusal) => Ok(told_of_refusal(refusal)),
    }
}

#[test]
fn trees_are_checked(rt: HostRuntime) -> Result<(), Fail> {
    let alloc = rt.alloc();
    for (asked, charges, lines, is) in [
        (
            Asked::Truth,
            "2",
            "trivial 0\ngives true\nsolution\n",
            Told::Valid,
        ),
        (
            Asked::Truth,
            "1",
            "trivial 0\ngives true\nsolution\n",
            Told::Cost(0),
        ),
        (
            Asked::Truth,
            "2",
            "trivial 0\ngives false\nsolution\n",
            Told::Node(0),
        ),
        (Asked::Somewhere, "9", LINES, Told::Node(3)),
        (Asked::Somewhere, "8", LINES, Told::Cost(2)),
        (Asked::Somewhere, "6", LINES, Told::Cost(1)),
        (Asked::Somewhere, "3", LINES, Told::Cost(0)),
        (
            Asked::Somewhere,
            "9",
            "gamma 1\nalpha 0\nclose\nlog\ngives false\ngives false\nlog\ngives false\nsolution\n",
            Told::Node(0),
        ),
        (
            Asked::Somewhere,
            "9",
            "gamma 0\nalpha 1\nclose\nlog\ngives false\ngives false\nlog\ngives false\nsolution\n",
            Told::Node(1),
        ),
        (
            Asked::Somewhere,
            "9",
            "gamma 0\nbeta 0 1\nclose\nlog\ngives false\ngives false\nlog\ngives false\nsolution\n",
            Told::Node(1),
        ),
        (
            Asked::Somewhere,
            "9",
            "gamma 0\nalpha 0\nclose\nlog o\ngives false\ngives false\nlog\ngives false\nsolution\n",
            Told::Node(2),
        ),
        (
            Asked::Somewhere,
            "9",
            "gamma 0\nalpha 0\nclose\nlog\ngives true\ngives false\nlog\ngives false\nsolution\n",
            Told::Node(2),
        ),
        (
            Asked::Somewhere,
            "9",
            "gamma 0\nalpha 0\nclose\nlog\ngives false\ngives true\nlog\ngives false\nsolution\n",
            Told::Node(1),
        ),
        (
            Asked::Somewhere,
            "9",
            "gamma 0\nalpha 0\nclose\nlog\ngives false\ngives false\nlog o\ngives false\nsolution\n",
            Told::Node(0),
        ),
        (
            Asked::Somewhere,
            "9",
            "gamma 0\nalpha 0\nclose\nlog\ngives false\ngives false\nlog\ngives false\nnone\n",
            Told::Node(3),
        ),
        (Asked::Truth, "1000000001", LINES, Told::Syntax(25)),
    ] {
        assert!(rt; told_of_lines(alloc, asked, charges, lines)? == is);
    }
    // 2,000 levels are the most
    for (more, is) in [(1_997, Told::Node(2_000)), (1_998, Told::Deep(20_920))] {
        assert!(rt; told_of_deep(alloc, more)? == is);
    }
    assert!(rt; told_with_entry(alloc)? == Told::Node(1));
    Ok(())
}
